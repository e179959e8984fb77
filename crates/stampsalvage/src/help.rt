// The text that `stampsalvage --help` writes. `.ci/help` tests that docs/stampsalvage.1 has each of its
// lines.
pub const TEXT: &[u8] = b"Usage: stampsalvage BOOK OUT
       stampsalvage -h | --help
       stampsalvage --version

Salvage a damaged book of stamps: copy its good lines, and drop the others. Each
line is judged alone. The good lines keep their order and their bytes, and so
they are a good book. A book has at most 65,536 bytes.

A message on standard error reports each line that is dropped: the name of the
book, the number of the line, and how many bytes the line has without its
newline. Lines are counted from 1. A last line without its newline is dropped,
even if its bytes would make a good line. Two lines that have run together are
one bad line, and both are lost.

If a since line is dropped, the hulls below it fall under the cut-off above it,
or under none. So a listing can gain or lose hulls.

BOOK is a file, or - for standard input. It is only read. OUT is made or
replaced: the good lines are written to a new file beside it, synced, and
renamed over it. If the book is too long, the disk is full or anything else
fails, OUT is as it was. Where OUT is -, the good lines are written to standard
output. OUT must not be BOOK, by this name or another, because only BOOK has the
lines that are dropped. For a file whose name begins with -, write ./-name.

-h, --help  write the help text and read no book
--version   write the name and the version and read no book
Only the first argument may be an option.

$ cat book
hull\toak.hull\t0123456789abcdef\t1744977410 +0200
since\t1 week ago\t1745582210\t7200
hull\telm.hull\tfedc
hull\toak.hull\t00112233445566ff\t1745582210 +0200
$ stampsalvage book saved
book:3: 18 bytes dropped
$ cat saved
hull\toak.hull\t0123456789abcdef\t1744977410 +0200
since\t1 week ago\t1745582210\t7200
hull\toak.hull\t00112233445566ff\t1745582210 +0200

If no line is bad, nothing is written to standard error. Any message that is not
about a dropped line says why nothing was salvaged: that the book is too long,
that OUT is BOOK, or what failed. The exit status does not say it. It is 0
unless a signal ends the program, because a Rattle program has no other.
";
