// The merge program: reads the images that its first two arguments name, merges them, writes the merged one to the third, and prints `done` with its
// length, or `refused` with the number. Both inputs are read before the third is opened, so it may be one of them; it is opened only once the merge is
// granted. It ends with an error only where a line can't be printed.
#![tactic(auto)]

ghost use Rattle.std.specs.Counts.{IsPrefixLen};

use dots::Refused;
use std::env::Env;
use std::fs::{Files, OpenFile};
use std::io::{ErrorKind, Read, Write};
use std::{fs, io};

// The path that an argument names; none where it is missing, long or no text.
fn argument<'a, R: Env>(rt: &R, i: usize, name: &'a mut [u8]) -> Option<&'a str> {
    let length = rt.arg(i, name).ok()?;
    str::from_utf8(&name[..length]).ok()
}

// Reads the file that an argument names, as far as the buffer goes, and answers how many bytes there are: none where it is missing or can't be opened.
fn load<R: Env + Files>(rt: &R, i: usize, buf: &mut [u8]) -> usize
    ensures { IsPrefixLen result buf.new }
{
    let mut name = [0u8; 4096];
    let Some(path) = argument(rt, i, &mut name) else {
        return 0;
    };
    let Ok(mut file) = fs::open(rt, path) else {
        return 0;
    };
    fill(&mut file, buf)
}

// Reads until the buffer is full, the file ends or a read fails, and answers how many bytes that are. A read moves on by what it gave: no
// index is counted.
fn fill<F: Read>(file: &mut F, buf: &mut [u8]) -> usize
    ensures { IsPrefixLen result buf.new }
{
    let mut done = 0;
    while done < buf.len() {
        match file.read(&mut buf[done..]) {
            Ok(0) | Err(_) => break,
            Ok(n) => done += n,
        }
    }
    done
}

// Writes the file that the third argument names, and answers whether it was written whole.
fn store<R: Env + Files>(rt: &R, image: &[u8]) -> bool {
    let mut name = [0u8; 4096];
    let Some(path) = argument(rt, 3, &mut name) else {
        return false;
    };
    let Ok(mut file) = fs::create(rt, path) else {
        return false;
    };
    file.write_all(image).is_ok() && kept(&file)
}

// Whether the system has what was written. A close doesn't say so: it is asked before. What can't be asked, as a pipe, has it.
fn kept<F: OpenFile>(file: &F) -> bool {
    match file.sync_all() {
        Ok(()) => true,
        Err(e) => e.kind() == ErrorKind::InvalidInput,
    }
}

// A buffer has one byte more than the longest image, so a file that is too long is refused as not well-formed.
fn main(rt: HostRuntime) -> io::Result<()> {
    let mut a = [0u8; 18269];
    let mut b = [0u8; 18269];
    let mut out = [0u8; 18268];
    let n = load(&rt, 1, &mut a);
    let m = load(&rt, 2, &mut b);
    match merging::merge(&a[..n], &b[..m], &mut out) {
        Ok(length) if store(&rt, &out[..length]) => println!(rt; "done {length}"),
        Ok(_) => println!(rt; "refused {}", Refused::ShortOutput.number()),
        Err(refused) => println!(rt; "refused {}", refused.number()),
    }
}
