// The text that `monthstrip --help` writes. `.ci/help` tests that docs/monthstrip.1 has each of its lines.
pub const TEXT: &[u8] = b"Usage: monthstrip YEAR MONTH
       monthstrip -h | --help
       monthstrip --version

Print a month as a calendar shows it: a row for each week, with the number of
its ISO week in front and Monday first.

YEAR is -9999 to 9999, by the rules of the Gregorian calendar for all of these
years; year 0 comes before year 1. MONTH is 1 to 12. Both are in decimal, with
an optional sign in front: -5 is a year and no option.

The page is written to standard output. Its first line has the name of the month
and the year, in the middle of 23 columns, and its second line has the names of
the days. Each further line has 23 columns: two for the number of the week, then
a blank and two columns for each day. A day of another month is blank.

Weeks are those of ISO 8601: they begin on Monday, and week 1 of a year is the
one with the year's first Thursday. So the first days of January can be in week
52 or 53, and the last days of December in week 1.

-h, --help  write the help text and no page
--version   write the name and the version and no page
Only the first argument may be an option.

$ monthstrip 2021 1
     January 2021
   Mo Tu We Th Fr Sa Su
53              1  2  3
 1  4  5  6  7  8  9 10
 2 11 12 13 14 15 16 17
 3 18 19 20 21 22 23 24
 4 25 26 27 28 29 30 31
$ monthstrip 2021 13
monthstrip: no such month: YEAR is -9999 to 9999, MONTH is 1 to 12

If there is no page, a message on standard error says why; the exit status does
not. It is 0 unless a signal ends the program, even if a write failed, because a
Rattle program has no other. A failed write ends the program with a message on
standard error, so a script that has to know tests whether standard error is
empty.
";
