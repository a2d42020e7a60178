//! The program `pol_replay`: it plays the worked examples of the files that its words name, and tells which differ.
//! The openings of the first file serve all others, and those of another one that file alone.
#![tactic(auto)]

use pol_examples::Reader;
use pol_player::Played;
use std::process::ExitCode;
use std::{env, fs, io};

fn main(rt: HostRuntime) -> ExitCode {
    match play_files(&rt) {
        Ok(status) => ExitCode::from(status),
        Err(error) => {
            // Where standard error can't be written the status alone tells.
            let _ = eprintln!(rt; "pol_replay: {error}");
            ExitCode::from(2)
        }
    }
}

/// Plays the files that the words name, and gives the exit status: 0 where all examples agree, 1 where some differ,
/// and 2 where a line can't be read.
fn play_files(rt: &HostRuntime) -> io::Result<u8> {
    let words: Vec<String> = env::args(rt)?.collect(rt.alloc())?;
    let mut played = Played::new(rt.alloc());
    if !play_each(rt, words.as_slice(), &mut played)? {
        return Ok(2);
    }
    let line = played.last_line(rt.alloc())?;
    rt.println(line.as_str())?;
    Ok(played.status())
}

/// Plays the files that the words behind the first one name; gives whether each line could be read.
fn play_each(rt: &HostRuntime, words: &[String], played: &mut Played) -> io::Result<bool> {
    let mut reader = Reader::new(rt.alloc());
    for name in words.iter().skip(1) {
        if !play_file(rt, name.as_str(), &mut reader, played)? {
            return Ok(false);
        }
    }
    Ok(true)
}

/// Plays a file and tells what differs; gives whether each line could be read.
fn play_file(
    rt: &HostRuntime,
    name: &str,
    reader: &mut Reader,
    played: &mut Played,
) -> io::Result<bool> {
    let text = fs::read_to_string(rt, name)?;
    let is_read = played.play_text(rt, name, text.as_str(), reader)?;
    rt.print(played.text.as_str())?;
    played.text = String::new(rt.alloc());
    Ok(is_read)
}
