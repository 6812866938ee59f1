//! The program's folder: the files that it has there, and the text of its key.

ghost use Rattle.std.specs.Prelude.{◌≡◌, ◌≤◌, length, IfOk};
ghost use Rattle.search_words.specs.Words.{texts};
ghost use Rattle.atuin_main.specs.Folder.{call_for_a_key, call_for_a_folder};

use plain_types::NoMemory;
use std::alloc::Global;
use std::fs::Files;
use std::io::Read;
use std::{fs, io};

/// The bytes that a key's text can have, and one more, by which a longer file is told from it.
const KEY_TEXT_ROOM: usize = 67;

/// The words call for a key.
pub fn call_for_a_key(words: &[String]) -> bool
    ensures { result ≡ call_for_a_key (texts words.now) }
{
    match words {
        [_, name, ..] => name.as_str() == "pipe" || name.as_str() == "search",
        _ => false,
    }
}

/// The words are `FOLDER init`.
pub fn call_for_a_folder(words: &[String]) -> bool
    ensures { result ≡ call_for_a_folder (texts words.now) }
{
    match words {
        [_, name] => name.as_str() == "init",
        _ => false,
    }
}

/// The paths of the folder's files.
#[derive(Drop)]
pub struct Paths {
    pub log: String,
    pub second_log: String,
    pub key: String,
}

impl Paths {
    /// Those of the files in this folder.
    ///
    /// # Errors
    ///
    /// [`NoMemory`].
    pub fn within(alloc: Global, folder: &str) -> Result<Paths, NoMemory> {
        Ok(Paths {
            log: path_in(alloc, folder, "records.log")?,
            second_log: path_in(alloc, folder, "second.log")?,
            key: path_in(alloc, folder, "key")?,
        })
    }
}

fn path_in(alloc: Global, folder: &str, name: &str) -> Result<String, NoMemory> {
    let mut path = String::from_str(alloc, folder)?;
    path.push('/')?;
    path.push_str(name)?;
    Ok(path)
}

/// The first bytes of a key's text, or of a file that is no such text since it is longer.
#[derive(Drop)]
pub struct KeyText {
    bytes: [u8; KEY_TEXT_ROOM],
    len: usize,
    ghost inside: { len ≤ 67 },
}

impl KeyText {
    /// The empty text.
    pub fn empty() -> KeyText {
        KeyText {
            bytes: [0; KEY_TEXT_ROOM],
            len: 0,
        }
    }

    /// The text in the file at this path; the empty one where it can't be read.
    pub fn in_file<R: Files>(files: &R, path: &str) -> KeyText {
        let mut text = KeyText::empty();
        let Ok(mut file) = fs::open(files, path) else {
            return text;
        };
        if let Ok(len) = read_first(&mut file, &mut text.bytes) {
            text.len = len;
        }
        text
    }

    pub fn as_slice(&self) -> &[u8] {
        &self.bytes[..self.len]
    }
}

/// Reads up to the end, or as many bytes as fit.
fn read_first<R: Read>(reader: &mut R, into: &mut [u8]) -> io::Result<usize>
    ensures { IfOk result (λ n. n ≤ length into.old) }
{
    let mut at = 0;
    for _ in 0..KEY_TEXT_ROOM {
        let count = reader.read(&mut into[at..])?;
        if count == 0 {
            break;
        }
        at += count;
    }
    Ok(at)
}
