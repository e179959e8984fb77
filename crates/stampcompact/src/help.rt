// The text that `stampcompact --help` writes. `.ci/help` tests that docs/stampcompact.1 has each of its
// lines.
pub const TEXT: &[u8] = b"Usage: stampcompact BOOK [OUT]
       stampcompact -h | --help
       stampcompact --version

Compact a book of stamps: drop each hull line whose path a later hull line has.
All other lines stay, in their order and with their bytes: for each path its
last hull line, and every since line.

BOOK is a file. It is replaced by the compacted book, which is written to a new
file beside it, synced, and renamed over it. If the book is bad, the disk is
full or anything else fails, BOOK is as it was. If the program is killed, BOOK
is the old book or the compacted one. A book that is compact already is not
touched.

With OUT, BOOK is only read, and OUT is made or replaced in the same way. Where
OUT is -, the compacted book is written to standard output. Where BOOK is -, the
book is read from standard input, and OUT must be given. For a file whose name
begins with -, write ./-name.

A compacted book may list less: a hull whose last line is before the cut-off is
no longer listed by an older line.

-h, --help  write the help text and read no book
--version   write the name and the version and read no book
Only the first argument may be an option.

$ cat book
hull\toak.hull\t0123456789abcdef\t1744977410 +0200
since\t1 week ago\t1745582210\t7200
hull\telm.hull\tfedcba9876543210\t1744977409 +0200
hull\toak.hull\t00112233445566ff\t1745582210 +0200
$ stampcompact book
stampcompact: book: 4 lines, 177 bytes before; 3 lines, 129 bytes after
$ cat book
since\t1 week ago\t1745582210\t7200
hull\telm.hull\tfedcba9876543210\t1744977409 +0200
hull\toak.hull\t00112233445566ff\t1745582210 +0200

When all is done, one line on standard error says how many lines and bytes there
were before and after. Any other message says why nothing was compacted: the
number of the first bad line, that the book is too long, or what failed. The
exit status does not say it. It is 0 unless a signal ends the program, because a
Rattle program has no other.
";
