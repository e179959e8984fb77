// The text that `stamplist --help` writes. `.ci/help` tests that docs/stamplist.1 has each of its lines.
pub const TEXT: &[u8] = b"Usage: stamplist [BOOK]
       stamplist -h | --help
       stamplist --version

List the cooked hulls in a book of stamps. A hull line is listed if its seconds
are at or after the cut-off of the last since line above it, or if no since line
is above it. The lines listed are written to standard output, in the order and
with the bytes of the book.

BOOK is a file. Where it is missing or is -, the book is read from standard
input. For a file whose name begins with -, write ./-name.

A line has four fields, with tabs between, and ends in a newline:
hull, path, key, time
since, text, current seconds, current offset
A path has 1 to 255 bytes from 32 to 126. A key has 16 lower-case hexadecimal
digits. A time is seconds since 1970 and an offset in hours and minutes, as in
1745582210 +0200; the offset may be -0000. A text is a relative date, as in
2 weeks ago, of at most 256 pairs of a count and a unit; the time that it means
at the current time is the cut-off. Seconds and the current offset are in plain
decimal. A book has at most 65,536 bytes; the empty book is good.

Numbers and times are exact: with +5, 05, -0, 5 +0060 or 5 -000000 a line is
bad. So is a line with a carriage return before its newline, or an empty line. A
path may be in several lines; each line is listed or not by itself.

-h, --help  write the help text and read no book
--version   write the name and the version and read no book
Only the first argument may be an option.

$ cat book
since\t1 week ago\t1745582210\t7200
hull\toak.hull\t0123456789abcdef\t1744977410 +0200
hull\telm.hull\tfedcba9876543210\t1744977409 +0200
$ stamplist book
hull\toak.hull\t0123456789abcdef\t1744977410 +0200
$ printf 'hull\\toak.hull\\n' | stamplist
standard input:1: bad line

Nothing of a bad book is listed. A message on standard error has the number of
its first bad line, or says that the book is too long; the exit status does not.
It is 0 unless a signal ends the program, even if a read or a write failed,
because a Rattle program has no other. A failed read or write ends the program
with a message on standard error, so a script that has to know tests whether
standard error is empty.
";
