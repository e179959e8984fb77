// What the programs share: a whole input read, standard output written, messages on standard error, and
// arguments. Each program has one `Tool`, made in its `main`.
//
// No contract can say which bytes the system reads or writes: what is proved here is that every call is
// safe and ends. A read or a write that a signal interrupts is made again, and so is one on a descriptor
// that does not block and is not ready. The programs end with the exit status 0, and every failure is
// reported by a message.
#![tactic(auto)]

pub mod files;

ghost use Rattle.std.specs.Prelude.{◌≤◌, ◌≡◌, length};
ghost use Rattle.std.specs.Option.{IfSome};
ghost use Rattle.std.specs.Result.{IfOk, IfErr, OnOk};
ghost use Rattle.std.specs.Io.KnownBytes.{Appends};
ghost use Rattle.streams.specs.Names.{name_of, is_standard, is_option, is_common_option, message_of};

use std::env::FillError;
use std::io::{Cursor, ErrorKind, Read, Write};
use std::rt::Env;
use std::time::Duration;
use std::{fs, io, str, thread};
use text::{bytes, places};

// How long a program waits for a descriptor that is not ready, in milliseconds.
const PAUSE: u64 = 1;

// Room for the reason of a failure, as std words it.
const REASON: usize = 256;

// No argument of a program is longer. Rooms for arguments, books and messages are arrays, here and in the
// programs: but for the name of a new file, nothing is on the heap.
pub const MAX_ARGUMENT: usize = 4096;

// Room for a message that is written at once. No message of a program about its arguments is longer: its
// name and its words, and one argument.
const MAX_MESSAGE: usize = MAX_ARGUMENT + 256;

// A failure whose message is on standard error already.
#[derive(Clone, Copy)]
pub struct Reported;

// A read that failed, which is reported too: how many bytes were at the front of the room by then.
#[derive(Clone, Copy)]
pub struct Unread {
    pub length: usize,
}

impl From<Unread> for Reported {
    fn from(_: Unread) -> Reported {
        Reported
    }
}

impl From<Reported> for Unread {
    ghost from_gives = { λ _ u. u.length ≡ 0 };

    fn from(_: Reported) -> Unread {
        Unread { length: 0 }
    }
}

// A program: the runtime that it runs by, and its name, which a message opens with.
#[derive(Clone, Copy)]
pub struct Tool<'a> {
    rt: &'a HostRuntime,
    name: &'a [u8],
}

// The name of an input in a message: `-` is standard input.
pub fn name_of<'a>(path: &'a [u8], input: &'a [u8]) -> &'a [u8]
    ensures { result.now ≡ name_of input.now path.now }
{
    if is_standard(path) { input } else { path }
}

// Whether a path names standard input or output.
pub fn is_standard(path: &[u8]) -> bool
    ensures { result ≡ is_standard path.now }
{
    bytes::same(path, b"-")
}

// Whether an argument is an option: `-` alone names standard input or output.
pub fn is_option(word: &[u8]) -> bool
    ensures { result ≡ is_option word.now }
{
    matches!(word, [b'-', _, ..])
}

impl<'a> Tool<'a> {
    pub fn new(rt: &'a HostRuntime, name: &'a [u8]) -> Tool<'a>
        ensures { result.name.now ≡ name.now }
    {
        Tool { rt, name }
    }

    // ---- arguments

    // Whether the program was given an argument `i`. Argument 0 is the name of the program.
    pub fn has_argument(&self, i: usize) -> bool {
        !matches!(self.rt.arg(i, &mut []), Err(FillError::NotPresent))
    }

    // Copies argument `i` to the front of `room` and returns its length; `None` if there is no such
    // argument. One that is longer than the room is refused with a message.
    pub fn argument(&self, i: usize, room: &mut [u8]) -> Result<Option<usize>, Reported>
        ensures { IfOk result (λ found. IfSome found (λ n. n ≤ length room.new)) }
    {
        match self.rt.arg(i, room) {
            Ok(n) => Ok(Some(n)),
            Err(FillError::NotPresent) => Ok(None),
            Err(FillError::TooLong) => Err(self.complain(b"argument of more than 4,096 bytes")),
        }
    }

    // Answers `--help` by the help text and `--version` by the name and the version, and says whether
    // the word was one of them.
    pub fn answers(&self, word: &[u8], help: &[u8], version: &[u8]) -> Result<bool, Reported>
        ensures { IfOk result (λ known. known ≡ is_common_option word.now) }
    {
        if bytes::same(word, b"-h") | bytes::same(word, b"--help") {
            self.write_out(help)?;
            Ok(true)
        } else if bytes::same(word, b"--version") {
            self.write_out(version)?;
            Ok(true)
        } else {
            Ok(false)
        }
    }

    // ---- reading

    // Reads a file to its end, or until `room` is full, and returns how many bytes were read: they are
    // at the front of `room`.
    pub fn read_file(&self, path: &[u8], room: &mut [u8]) -> Result<usize, Unread>
        ensures read { IfOk result (λ n. n ≤ length room.new) }
        ensures unread { IfErr result (λ e. e.length ≤ length room.new) }
    {
        let text = self.text_of(path)?;
        let mut file = fs::open(self.rt, text).map_err(|error| self.fail(path, &error))?;
        self.read_whole(path, &mut file, room)
    }

    // Reads standard input in the same way.
    pub fn read_input(&self, room: &mut [u8]) -> Result<usize, Unread>
        ensures read { IfOk result (λ n. n ≤ length room.new) }
        ensures unread { IfErr result (λ e. e.length ≤ length room.new) }
    {
        let mut input = self.rt.stdin();
        self.read_whole(b"standard input", &mut input, room)
    }

    // Reads a file in the same way, or standard input if the path is `-`.
    pub fn read(&self, path: &[u8], room: &mut [u8]) -> Result<usize, Unread>
        ensures read { IfOk result (λ n. n ≤ length room.new) }
        ensures unread { IfErr result (λ e. e.length ≤ length room.new) }
    {
        if is_standard(path) {
            self.read_input(room)
        } else {
            self.read_file(path, room)
        }
    }

    // Reads once from standard input and returns how many bytes were read; `None` if the read has to be
    // made again.
    pub fn read_once(&self, room: &mut [u8]) -> Result<Option<usize>, Reported>
        ensures { IfOk result (λ got. IfSome got (λ n. n ≤ length room.new)) }
    {
        let mut input = self.rt.stdin();
        self.read_part(b"standard input", &mut input, room)
    }

    // Reads what `name` names. A proved loop has to end, and nothing says that an input does not
    // interrupt its reads for ever, so the loop counts its reads down from a number that no run uses up.
    // What is behind the loop is never reached.
    fn read_whole<I: Read>(
        &self,
        name: &[u8],
        input: &mut I,
        room: &mut [u8],
    ) -> Result<usize, Unread>
        ensures read { IfOk result (λ n. n ≤ length room.new) }
        ensures unread { IfErr result (λ e. e.length ≤ length room.new) }
    {
        let mut held: usize = 0;
        for _ in 0..u64::MAX {
            if room.len() <= held {
                return Ok(held);
            }
            match self.read_part(name, input, &mut room[held..]) {
                Ok(Some(0)) => return Ok(held),
                Ok(Some(n)) => held += n,
                Ok(None) => {}
                Err(Reported) => return Err(Unread { length: held }),
            }
        }
        Err(Unread { length: held })
    }

    // Makes one read of what `name` names; `None` if it has to be made again.
    fn read_part<I: Read>(
        &self,
        name: &[u8],
        input: &mut I,
        room: &mut [u8],
    ) -> Result<Option<usize>, Reported>
        ensures { IfOk result (λ got. IfSome got (λ n. n ≤ length room.new)) }
    {
        match input.read(room) {
            Ok(n) => Ok(Some(n)),
            Err(error) => {
                self.pass(name, &error)?;
                Ok(None)
            }
        }
    }

    // ---- writing

    // Writes all of `s` to standard output. If a write fails, some of `s` may have been written by then.
    pub fn write_out(&self, s: &[u8]) -> Result<(), Reported> {
        let mut out = self.rt.stdout();
        self.write_whole(b"standard output", &mut out, s)
    }

    // The same for standard error, where `s` is an answer and not a message. If a write fails, there may
    // be nowhere to say so.
    pub fn write_error(&self, s: &[u8]) -> Result<(), Reported> {
        let mut out = self.rt.stderr();
        self.write_whole(b"standard error", &mut out, s)
    }

    // Writes all of `s` to a file as `write_file` does, or to standard output if the path is `-`.
    pub fn write(&self, path: &[u8], s: &[u8]) -> Result<(), Reported> {
        if is_standard(path) {
            self.write_out(s)
        } else {
            self.write_file(path, s)
        }
    }

    // Writes all of `s` in the same way to what `name` names. std's `write_all` does not wait for a
    // descriptor that is not ready, so the loop is here. A proved loop has to end: it counts its writes
    // down from a number that no run uses up.
    fn write_whole<O: Write>(&self, name: &[u8], out: &mut O, s: &[u8]) -> Result<(), Reported> {
        let mut left = s;
        for _ in 0..u64::MAX {
            if left.is_empty() {
                return Ok(());
            }
            let taken = self.write_part(name, out, left)?;
            left = &left[taken..];
        }
        Err(Reported)
    }

    // Makes one write of `s`, which is not empty, and returns how many bytes it took. It may take only a
    // part of `s`, or nothing if it has to be made again.
    fn write_part<O: Write>(&self, name: &[u8], out: &mut O, s: &[u8]) -> Result<usize, Reported>
        ensures { IfOk result (λ n. n ≤ length s.now) }
    {
        match out.write(s) {
            Ok(0) => Err(self.refuse(name, b"no byte was taken")),
            Ok(taken) => Ok(taken),
            Err(error) => {
                self.pass(name, &error)?;
                Ok(0)
            }
        }
    }

    // Passes over the error of a read or a write that is to be made again: a signal interrupted it, or
    // its descriptor does not block and is not ready yet. Any other has failed for good.
    fn pass(&self, name: &[u8], error: &io::Error) -> Result<(), Reported> {
        match error.kind() {
            ErrorKind::Interrupted => Ok(()),
            ErrorKind::WouldBlock => {
                thread::sleep(self.rt, Duration::from_millis(PAUSE));
                Ok(())
            }
            _ => Err(self.fail(name, error)),
        }
    }

    // ---- messages

    // Writes a part of a message to standard error. If the write fails, there is nowhere to say so.
    pub fn say(&self, part: &[u8]) {
        let _ = Print::write_all(&self.rt.stderr(), part);
    }

    // Writes a number to standard error, in plain decimal.
    pub fn say_number(&self, n: usize) {
        let _ = self.rt.stderr().print(n);
    }

    // Writes `PROGRAM: what; try --help`: what is wrong with the arguments.
    pub fn complain(&self, what: &[u8]) -> Reported {
        self.say_line(&[what, b"; try --help\n"]);
        Reported
    }

    // Writes `PROGRAM: what 'WORD'; try --help`: what is wrong with one argument.
    pub fn complain_of(&self, what: &[u8], word: &[u8]) -> Reported {
        self.say_line(&[what, b" '", word, b"'; try --help\n"]);
        Reported
    }

    // Writes `PROGRAM: what`: why the program stops.
    pub fn report(&self, what: &[u8]) -> Reported {
        self.say_line(&[what, b"\n"]);
        Reported
    }

    // Says on standard error where a book is bad: `NAME:LINE: bad line`, or that it is too long if the
    // line is 0. It is the message of every program that reads a book.
    pub fn bad_book(&self, name: &[u8], line: usize) -> Reported {
        self.say(name);
        if line == 0 {
            self.say(b": too long: more than 65,536 bytes\n");
        } else {
            self.say(b":");
            self.say_number(line);
            self.say(b": bad line\n");
        }
        Reported
    }

    // Writes `PROGRAM: NAME: reason`, where the reason is that of `error`.
    fn fail(&self, name: &[u8], error: &io::Error) -> Reported {
        self.say_name();
        self.say(name);
        self.say_reason(error);
        Reported
    }

    // Writes `PROGRAM: NAME: why`.
    fn refuse(&self, name: &[u8], why: &[u8]) -> Reported {
        self.say_name();
        self.say(name);
        self.say(b": ");
        self.say(why);
        self.say(b"\n");
        Reported
    }

    // Writes the start of a message: the program's name, a colon and a blank.
    pub fn say_name(&self) {
        self.say_line(&[]);
    }

    // Writes the start of a message and these parts to standard error.
    fn say_line(&self, parts: &[&[u8]]) {
        let _ = self.put_message(&mut io::writer(&self.rt.stderr()), parts);
    }

    // Writes the start of a message and these parts to `out`, in one write, so that what another program
    // writes to the same place does not come between them. A message that is longer than the room for it is
    // written part by part.
    fn put_message<O: Write>(&self, out: &mut O, parts: &[&[u8]]) -> io::Result<()> {
        let mut line = Cursor::new([0u8; MAX_MESSAGE]);
        if self.put_parts(&mut line, parts).is_ok() {
            let n = line.position() as usize;
            out.write_all(places::up_to(line.get_ref(), n))
        } else {
            self.put_parts(out, parts)
        }
    }

    // Writes the start of a message and these parts to `out`, each in its turn. It is an error if `out` does
    // not take one of them whole.
    fn put_parts<O: Write>(&self, out: &mut O, parts: &[&[u8]]) -> io::Result<()>
        ensures { OnOk result (Appends (O.contents out.old) (O.contents out.new) (message_of self.now.name.now parts.now)) }
    {
        out.write_all(self.name)?;
        out.write_all(b": ")?;
        for part in parts {
            out.write_all(part)?;
        }
        Ok(())
    }

    // Writes the end of a message: a colon and the reason of a failure.
    fn say_reason(&self, error: &io::Error) {
        let mut reason = Cursor::new([0u8; REASON]);
        let _ = write!(reason, "{error}");
        let said = places::before(reason.get_ref(), 0);
        self.say(b": ");
        self.say(system_words(said));
        self.say(b"\n");
    }

    // A path as text. std opens a file by a name that is text in UTF-8, and by no other.
    fn text_of<'p>(&self, path: &'p [u8]) -> Result<&'p str, Reported> {
        str::from_utf8(path).map_err(|_| self.refuse(path, b"the name is not UTF-8"))
    }
}

// The reason in the system's words: std puts ` (os error N)` behind them.
fn system_words(said: &[u8]) -> &[u8] {
    let Ok(text) = str::from_utf8(said) else {
        return said;
    };
    match text.split_once(" (os error ") {
        Some((words, _)) => words.as_bytes(),
        None => said,
    }
}

#[cfg(test)]
mod tests {
    use super::*;

    // What was written, and by how many writes.
    #[derive(Drop)]
    struct Writes {
        bytes: Cursor<[u8; MAX_MESSAGE + 8]>,
        number: usize,
    }

    impl Write for Writes {
        fn write(&mut self, buf: &[u8]) -> io::Result<usize> {
            self.number = self.number.saturating_add(1);
            self.bytes.write(buf)
        }

        fn flush(&mut self) -> io::Result<()> {
            Ok(())
        }
    }

    // Whether a message of `n` dots and an exclamation mark is written by so many writes, each byte of it
    // and no other.
    fn is_written(tool: &Tool, n: usize, writes: usize) -> bool {
        let dots = [b'.'; MAX_MESSAGE];
        let dots = places::up_to(&dots, n);
        let mut out = Writes {
            bytes: Cursor::new([0u8; MAX_MESSAGE + 8]),
            number: 0,
        };
        let wrote = tool.put_message(&mut out, &[dots, b"!"]).is_ok();
        let written = places::up_to(out.bytes.get_ref(), out.bytes.position() as usize);
        wrote
            & (out.number == writes)
            & (written.len() == dots.len() + 7)
            & bytes::same(places::up_to(written, 6), b"tool: ")
            & bytes::same(places::before(places::from(written, 6), b'!'), dots)
    }

    // Messages that fit in the room for them, the longest among them, are one write, and longer ones one for
    // each part. And the calls that write a long one to standard error, of which no test sees the bytes.
    #[test]
    fn writes_long_messages(rt: HostRuntime) {
        let tool = Tool::new(&rt, b"tool");
        for n in [1, MAX_MESSAGE - 7] {
            assert!(rt; is_written(&tool, n, 1), "at {n}");
        }
        for n in [MAX_MESSAGE - 6, MAX_MESSAGE] {
            assert!(rt; is_written(&tool, n, 4), "at {n}");
        }
        let long = [b'.'; MAX_MESSAGE];
        let Reported = tool.complain(&long);
        let Reported = tool.complain_of(b"word", &long);
        let Reported = tool.report(&long);
        Tool::new(&rt, &long).say_name();
    }
}
