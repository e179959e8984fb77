// A file replaced by another so that nothing is lost: the bytes go to a new file beside it, which is
// synced and then renamed over it. A full disk, a failed call or a kill before the rename leaves the old
// file as it was. After a kill the new file may stay behind; its name is that of the old file, `.tmp.`
// and some letters or digits.
//
// Only a regular file is replaced, or made if there is none. A device or a pipe is written to as it
// is, or refused. A symbolic link is refused: the rename would replace the link, and not what it names.
//
// No message is written while the old file is open for writing: if standard error was closed when the
// program started, the open file may have its number.
//
// std closes a file where it is dropped, and does not say how that went. The bytes of a new file are on
// the device by then; for a device or a pipe, a close that fails is not noticed.
ghost use Rattle.std.specs.Prelude.{◌≤◌, length};
ghost use Rattle.std.specs.Result.{IfOk, IfErr};

use crate::{Reported, Tool, Unread};
use std::fs::{File, Metadata, OpenOptions, Permissions};
use std::io::ErrorKind;
use std::os::unix::fs::{MetadataExt, OpenOptionsExt, PermissionsExt, fchown};
use std::random::RandomSource;
use std::{fs, io, process, str};

// The bits of a mode that say who may read, write and run the file.
const PERMISSIONS: u32 = 0o777;

// The permissions of a file that its owner alone may read.
const PRIVATE: u32 = 0o600;

// The letters and digits that the name of a new file ends in, and how many of them.
const LETTERS: &[u8; 62] = b"ABCDEFGHIJKLMNOPQRSTUVWXYZabcdefghijklmnopqrstuvwxyz0123456789";

const DRAWN: usize = 6;

// How many names are tried for a new file.
const TRIES: usize = 100;

// The system's error for a name that is taken.
const EEXIST: i32 = 17;

// What the system calls the descriptors that are open, and standard input among them. std tells nothing of
// a descriptor that it has not opened.
const DESCRIPTORS: &str = "/proc/self/fd";

const INPUT: &str = "/proc/self/fd/0";

// What a new file takes over from the file that it replaces.
#[derive(Clone, Copy)]
struct Kept {
    mode: u32,
    user: u32,
    group: u32,
}

// What is open: a regular file, something else, or something that the system tells nothing about.
// Three cases, each answered in its own way, so no Option of what is kept.
#[derive(Clone, Copy)]
enum Kind {
    Regular(Kept),
    Other,
    Unknown,
}

impl<'a> Tool<'a> {
    // Reads a file that `replace_file` can replace, to its end or until `room` is full, and returns how
    // many bytes were read. What is not a regular file is refused, and so is a symbolic link.
    pub fn read_regular(&self, path: &[u8], room: &mut [u8]) -> Result<usize, Unread>
        ensures read { IfOk result (λ n. n ≤ length room.new) }
        ensures unread { IfErr result (λ e. e.length ≤ length room.new) }
    {
        let text = self.text_of(path)?;
        let mut file = fs::open(self.rt, text).map_err(|error| self.fail(path, &error))?;
        self.may_replace(text, &file)?;
        self.read_whole(path, &mut file, room)
    }

    // Refuses the file that is open for reading unless it is regular and is not named by a symbolic link.
    fn may_replace(&self, path: &str, file: &File) -> Result<(), Reported> {
        match kind_of(file) {
            Kind::Regular(_) => self.refuse_link(path),
            Kind::Other | Kind::Unknown => Err(self.refuse_kind(path)),
        }
    }

    fn refuse_link(&self, path: &str) -> Result<(), Reported> {
        if is_link(self.rt, path) {
            Err(self.refuse(path.as_bytes(), b"a symbolic link; name the file itself"))
        } else {
            Ok(())
        }
    }

    fn refuse_kind(&self, path: &str) -> Reported {
        self.refuse(path.as_bytes(), b"not a regular file")
    }

    // Replaces the regular file at `path`, or makes it. It then holds `s`; permissions, owner and group are
    // those of the file before it, as far as the user may set them. If anything fails, the file is as it
    // was. A file that the user may not write is not replaced.
    pub fn replace_file(&self, path: &[u8], s: &[u8]) -> Result<(), Reported> {
        let text = self.text_of(path)?;
        match open_append(self.rt, text) {
            Ok(file) => {
                let kind = kind_of(&file);
                drop(file);
                match kind {
                    Kind::Regular(old) => self.replace(text, Some(old), s),
                    Kind::Other | Kind::Unknown => Err(self.refuse_kind(text)),
                }
            }
            Err(error) => self.replace_missing(text, &error, s),
        }
    }

    // The same for a file that may also be a device or a pipe, which is written to as it is. Opening a file
    // to append neither makes it nor empties it. Opening it to read could wait for ever: a pipe waits until
    // somebody writes to it.
    pub fn write_file(&self, path: &[u8], s: &[u8]) -> Result<(), Reported> {
        let text = self.text_of(path)?;
        match open_append(self.rt, text) {
            Ok(mut file) => match kind_of(&file) {
                Kind::Regular(old) => {
                    drop(file);
                    self.replace(text, Some(old), s)
                }
                Kind::Unknown => {
                    drop(file);
                    Err(self.refuse_kind(text))
                }
                Kind::Other => self.write_whole(path, &mut file, s),
            },
            Err(error) => self.replace_missing(text, &error, s),
        }
    }

    // Makes the file at `path`, which could not be opened, if the reason is that there is none.
    fn replace_missing(&self, path: &str, error: &io::Error, s: &[u8]) -> Result<(), Reported> {
        if error.kind() == ErrorKind::NotFound {
            self.replace(path, None, s)
        } else {
            Err(self.fail(path.as_bytes(), error))
        }
    }

    // Replaces the file at `path`, which is regular, or makes it if there is none before it. Where a file is
    // replaced, the new one can be read by its owner alone until it has the permissions of the old one.
    fn replace(&self, path: &str, old: Option<Kept>, s: &[u8]) -> Result<(), Reported> {
        self.refuse_link(path)?;
        let made = match old {
            Some(_) => create_private(self.rt, path),
            None => create_shared(self.rt, path),
        };
        let new = made.map_err(|error| self.fail_beside(path, old, &error))?;
        self.replace_by(path, new, old, s)
    }

    // Says why no file was made beside the one at `path`.
    fn fail_beside(&self, path: &str, old: Option<Kept>, error: &io::Error) -> Reported {
        self.say_name();
        self.say(path.as_bytes());
        self.say(b".tmp.");
        match old {
            Some(_) => self.say(b"XXXXXX"),
            None => self.say_number(process::id(self.rt.process()) as usize),
        }
        self.say_reason(error);
        Reported
    }

    // Fills the new file and renames it over the old one. If that fails, the new file is removed.
    fn replace_by(
        &self,
        path: &str,
        new: New,
        old: Option<Kept>,
        s: &[u8],
    ) -> Result<(), Reported> {
        let New { name, mut file } = new;
        let filled = self.fill(name.as_str(), &mut file, old, s);
        drop(file);
        let replaced = filled.and_then(|()| self.rename(name.as_str(), path));
        if replaced.is_err() {
            let _ = fs::remove_file(self.rt, name.as_str());
        }
        replaced
    }

    fn rename(&self, new: &str, path: &str) -> Result<(), Reported> {
        fs::rename(self.rt, new, path).map_err(|error| self.fail(path.as_bytes(), &error))
    }

    // Gives the new file its owner and permissions, before it holds a byte, and then its bytes, and waits
    // until they are on the device.
    fn fill(
        &self,
        new: &str,
        file: &mut File,
        old: Option<Kept>,
        s: &[u8],
    ) -> Result<(), Reported> {
        take_over(file, old).map_err(|error| self.fail(new.as_bytes(), &error))?;
        self.write_whole(new.as_bytes(), file, s)?;
        file.sync_all()
            .map_err(|error| self.fail(new.as_bytes(), &error))
    }

    // Whether two paths name the same regular file: by the same name, by two spellings of it, or by a link.
    // The answer is false if a path names no file, or a file that the system tells nothing about.
    pub fn is_same_file(&self, path: &[u8], other: &[u8]) -> bool {
        are_same(known_at(self.rt, path), known_at(self.rt, other))
    }

    // Whether standard input is read from the regular file that a path names. Where the system cannot be
    // asked, the answer is true for every regular file, so that no caller overwrites its input.
    pub fn is_input(&self, path: &[u8]) -> bool {
        let file = known_at(self.rt, path);
        match fs::metadata(self.rt, INPUT) {
            Ok(input) => are_same(Some(input), file),
            Err(_) => is_regular(file) & !lists_descriptors(self.rt),
        }
    }
}

fn open_append(rt: &HostRuntime, path: &str) -> io::Result<File> {
    OpenOptions::new().append(true).open(rt, path)
}

// A file that is made beside another, and its name.
struct New {
    name: String,
    file: File,
}

// Makes a file whose name ends in the number of this process, and which all may read whom the umask of
// the process lets.
fn create_shared(rt: &HostRuntime, path: &str) -> io::Result<New> {
    let name = shared_name(rt, path)?;
    let file = OpenOptions::new()
        .write(true)
        .create_new(true)
        .open(rt, name.as_str())?;
    Ok(New { name, file })
}

fn shared_name(rt: &HostRuntime, path: &str) -> io::Result<String> {
    let id = process::id(rt.process());
    Ok(format!(in rt.alloc(); "{path}.tmp.{id}")?)
}

// Makes a file that its owner alone may read. Its name ends in letters and digits that the system draws.
fn create_private(rt: &HostRuntime, path: &str) -> io::Result<New> {
    for _ in 0..TRIES {
        let name = private_name(rt, path)?;
        let made = OpenOptions::new()
            .write(true)
            .create_new(true)
            .mode(PRIVATE)
            .open(rt, name.as_str());
        match made {
            Ok(file) => return Ok(New { name, file }),
            Err(error) if error.kind() != ErrorKind::AlreadyExists => return Err(error),
            Err(_) => {}
        }
    }
    Err(io::Error::from_raw_os_error(EEXIST))
}

fn private_name(rt: &HostRuntime, path: &str) -> io::Result<String> {
    let mut drawn = [0u8; DRAWN];
    rt.fill_bytes(&mut drawn)?;
    let mut name = format!(in rt.alloc(); "{path}.tmp.")?;
    for byte in drawn {
        name.push(char::from(LETTERS[usize::from(byte) % LETTERS.len()]))?;
    }
    Ok(name)
}

// Gives the new file what is known of the old one, and fails if the permissions cannot be set. Most
// users may not give a file away, so it does not count if the owner and the group cannot be set.
fn take_over(file: &File, old: Option<Kept>) -> io::Result<()> {
    match old {
        Some(kept) => {
            let _ = fchown(file, Some(kept.user), Some(kept.group));
            file.set_permissions(Permissions::from_mode(kept.mode & PERMISSIONS))
        }
        None => Ok(()),
    }
}

// Whether a symbolic link is at `path`.
fn is_link(rt: &HostRuntime, path: &str) -> bool {
    fs::symlink_metadata(rt, path).is_ok_and(|about| about.is_symlink())
}

// Whether the system names the descriptors that are open: if it does, and names no standard input, that
// is closed.
fn lists_descriptors(rt: &HostRuntime) -> bool {
    fs::metadata(rt, DESCRIPTORS).is_ok_and(|about| about.is_dir())
}

fn are_same(one: Option<Metadata>, other: Option<Metadata>) -> bool {
    let (Some(one), Some(other)) = (one, other) else {
        return false;
    };
    one.is_file() & (one.dev() == other.dev()) & (one.ino() == other.ino())
}

fn is_regular(about: Option<Metadata>) -> bool {
    about.is_some_and(|about| about.is_file())
}

// Of what kind an open file is.
fn kind_of(file: &File) -> Kind {
    match file.metadata() {
        Ok(about) => {
            if about.is_file() {
                return Kind::Regular(Kept {
                    mode: about.mode(),
                    user: about.uid(),
                    group: about.gid(),
                });
            }
            Kind::Other
        }
        Err(_) => Kind::Unknown,
    }
}

// What is known of the file that a path names. A symbolic link is followed. Nothing is opened, because
// opening a pipe could wait for ever.
fn known_at(rt: &HostRuntime, path: &[u8]) -> Option<Metadata> {
    let text = str::from_utf8(path).ok()?;
    fs::metadata(rt, text).ok()
}
