// The text that `stampmerge --help` writes. `.ci/help` tests that docs/stampmerge.1 has each of its lines.
pub const TEXT: &[u8] = b"Usage: stampmerge FIRST SECOND OUT
       stampmerge -h | --help
       stampmerge --version

Merge the lists of two build machines into one book of stamps. A list has hull
lines only, and no line is earlier than the line above it: its seconds are the
same or more. A list has at most 32,768 bytes; the empty list is good.

The merged book has every line of both lists, with its bytes, in the order of
the seconds. Lines of one list stay in their order. Where a line of FIRST and a
line of SECOND have the same seconds, that of FIRST comes first.

A path that is in both lists is reported if its key in the last line of FIRST
that has it is not its key in the last line of SECOND that has it. The report
goes to standard error, a line for each such path, in the order in which the
paths are first in the merged book: path, key in FIRST, key in SECOND, with tabs
between. The book is written all the same, and has the lines of both.

FIRST and SECOND are files. One of them may be -, which is standard input. OUT
is made or replaced: the book is written to a new file beside it, synced, and
renamed over it. If a list is not good, the disk is full or anything else fails,
OUT is as it was. OUT may be FIRST or SECOND, because both are read before
anything is written. Where OUT is -, the book is written to standard output. For
a file whose name begins with -, write ./-name.

-h, --help  write the help text and read no list
--version   write the name and the version and read no list
Only the first argument may be an option.

$ cat north
hull\toak.hull\t0123456789abcdef\t1744977410 +0200
hull\telm.hull\tfedcba9876543210\t1745582210 +0200
$ cat south
hull\tash.hull\t8899aabbccddeeff\t1744977409 +0200
hull\toak.hull\t00112233445566ff\t1744977410 +0200
$ stampmerge north south book
oak.hull\t0123456789abcdef\t00112233445566ff
$ cat book
hull\tash.hull\t8899aabbccddeeff\t1744977409 +0200
hull\toak.hull\t0123456789abcdef\t1744977410 +0200
hull\toak.hull\t00112233445566ff\t1744977410 +0200
hull\telm.hull\tfedcba9876543210\t1745582210 +0200

Keys that differ are no failure. Any other message on standard error says why
nothing was merged: the first line that is bad or is earlier than the line above
it, a list that is too long, or what failed. The exit status does not say it. It
is 0 unless a signal ends the program, because a Rattle program has no other.
";
