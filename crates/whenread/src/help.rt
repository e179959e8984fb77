// The text that `whenread --help` writes. `.ci/help` tests that docs/whenread.1 has each of its lines.
pub const TEXT: &[u8] = b"Usage: whenread < LINES
       whenread -h | --help
       whenread --version

Read one date from each line of standard input; write its number (0: read, else
the refusal), seconds since 1970 and offset in seconds to standard output, a
line for each.

A line has four fields, with tabs between: FORM, current seconds, current
offset, text. FORM is header, raw, iso, relative or any. Where the current time
is missing, both its fields are -. The text keeps further tabs. A line has at
most 4,096 bytes before its end; the last one may lack its end.

-h, --help  write the help text and read no lines
--version   write the name and the version and read no lines

 0  read
 1  the text holds a byte of 128 or more
 2  the text is not of the form asked for
 3  the text is relative and the current time is missing
 4  the current time's seconds or offset is out of range
 5  the text is relative with more than 256 pairs
 6  a relative step leaves the range
 9  the line has the wrong layout or is too long
11  the text starts with a number that is too large for 64 bits
A refusal has seconds 0 and offset 0.

$ printf 'header\\t-\\t-\\t1745582210 +0200\\n' | whenread
0\t1745582210\t7200
$ printf 'relative\\t1698400800\\t0\\t2 minutes ago\\n' | whenread
0\t1698400680\t0
$ printf 'any\\t-\\t-\\tnow\\n' | whenread
3\t0\t0
$ printf 'header\\t-\\t-\\t99999999999999999999 +0200\\n' | whenread
11\t0\t0

The number of each answer says whether its line was read; the exit status does
not. It is 0 unless a signal ends the program, even if a read or a write failed,
because a Rattle program has no other. A failed read or write ends the program
with a message on standard error, so a script that has to know tests whether
standard error is empty.
";
