//! The tables that words name: `NAME=PATH`, or a path alone.

ghost use Rattle.std.specs.Prelude.{◌≡◌, ◌<◌, ◌++◌, ◌∷◌, IfOk, MatchOption, false, string_bytes, true, ⊤};
ghost use Rattle.std.specs.List.{after_last, before_last, list_any};
ghost use Rattle.kql_shell.specs.Names.{is_byte, path_given, table_name, table_word, without_ending, without_folder};

use kql_lexer::{is_reserved, is_word};
use kql_words::table_parts;
use std::alloc::{AllocError, Global};

// The file that the word `-` stands for.
const INPUT: &str = "/dev/stdin";

/// The word `NAME=PATH` of a file: the word itself, or the name that its path gives. `-` is the standard input.
pub fn table_word(alloc: Global, word: &str) -> Result<String, AllocError>
    ensures { IfOk result (λ made. string_bytes made ≡ table_word word.now) }
{
    match table_parts(word) {
        Some((name, path)) => joined_word(alloc, name, path),
        None => joined_word(alloc, table_name(word), word),
    }
}

fn joined_word(alloc: Global, name: &str, path: &str) -> Result<String, AllocError>
    ensures { IfOk result (λ made. string_bytes made ≡ name.now ++ 61 ∷ path_given path.now) }
{
    let mut word = String::from_str(alloc, name)?;
    word.push_str("=")?;
    word.push_str(path_given(path))?;
    Ok(word)
}

// The path of a file.
fn path_given(path: &str) -> &str
    ensures { result.now ≡ path_given path.now }
{
    if path == "-" { INPUT } else { path }
}

// The name of the table of a file: the file's, without folder and ending, where that is a word.
fn table_name(path: &str) -> &str
    ensures { result.now ≡ table_name path.now }
{
    let stem = without_ending(without_folder(path));
    if is_word(stem) && !is_reserved(stem) {
        stem
    } else {
        "T"
    }
}

// What stands behind the last slash.
fn without_folder(path: &str) -> &str
    ensures { result.now ≡ without_folder path.now }
{
    match split_last(path, b'/') {
        Some((_folder, file)) => file,
        None => path,
    }
}

// What stands before the last point.
fn without_ending(name: &str) -> &str
    ensures { result.now ≡ without_ending name.now }
{
    match split_last(name, b'.') {
        Some((stem, _ending)) => stem,
        None => name,
    }
}

// What stands before and behind the last place of a byte of ASCII.
fn split_last(text: &str, byte: u8) -> Option<(&str, &str)>
    requires ascii { byte < 128 }
    ensures none { MatchOption result (list_any (is_byte byte) text.now ≡ false) (λ _. list_any (is_byte byte) text.now ≡ true) }
    ensures parts { MatchOption result ⊤ (λ p. (p.0.now ≡ before_last (is_byte byte) text.now) × (p.1.now ≡ after_last (is_byte byte) text.now)) }
{
    let bytes = text.as_bytes();
    let mut end = bytes.len();
    'back: while end > 0 {
        end -= 1;
        if bytes[end] == byte {
            return Some((&text[..end], &text[end + 1..]));
        }
    }
    None
}
