// Runs the stored answers of the files in data/ again, and prints how many there are of each kind and how many differ. oracle/README.md says how each file was made.
#![tactic(auto)]

mod location;
mod reading;
mod stored;
mod writing;

use app_rooms::{OUT, room};
use std::fs::File;
use std::io;

fn replay_file(rt: &HostRuntime, name: &str, counts: &mut [usize]) -> io::Result<()> {
    let mut s: [u8; OUT] = room(0);
    let mut file = File::open(rt, name)?;
    let n = app_rooms::fill(&mut file, &mut s)?;
    stored::replay_all(&mut rt.stdout(), name.as_bytes(), &s[..n], counts)
}

fn replay_rust(rt: &HostRuntime, counts: &mut [usize]) -> io::Result<()> {
    replay_file(rt, "rust-read.txt", counts)?;
    replay_file(rt, "rust-write.txt", counts)?;
    test_stored_lines::say_source(&mut rt.stdout(), b"the Rust", counts)
}

fn replay_vectors(rt: &HostRuntime, counts: &mut [usize]) -> io::Result<()> {
    replay_file(rt, "vectors-read.txt", counts)?;
    replay_file(rt, "vectors-write.txt", counts)?;
    test_stored_lines::say_source(&mut rt.stdout(), b"vectors", counts)
}

fn replay_ticket1(rt: &HostRuntime, counts: &mut [usize]) -> io::Result<()> {
    replay_file(rt, "ticket1-locations.txt", counts)?;
    replay_file(rt, "ticket1-read.txt", counts)?;
    replay_file(rt, "ticket1-write.txt", counts)?;
    test_stored_lines::say_source(&mut rt.stdout(), b"vectors of ticket 1", counts)
}

fn replay_ticket2(rt: &HostRuntime, counts: &mut [usize]) -> io::Result<()> {
    replay_file(rt, "ticket2-read.txt", counts)?;
    test_stored_lines::say_source(&mut rt.stdout(), b"vectors of ticket 2", counts)
}

fn replay_ticket5(rt: &HostRuntime, counts: &mut [usize]) -> io::Result<()> {
    replay_file(rt, "ticket5-read.txt", counts)?;
    test_stored_lines::say_source(&mut rt.stdout(), b"vectors of ticket 5", counts)
}

fn replay_ticket7(rt: &HostRuntime, counts: &mut [usize]) -> io::Result<()> {
    replay_file(rt, "ticket7-read.txt", counts)?;
    test_stored_lines::say_source(&mut rt.stdout(), b"vectors of ticket 7", counts)
}

fn replay_numbers(rt: &HostRuntime, counts: &mut [usize]) -> io::Result<()> {
    replay_file(rt, "numbers.txt", counts)?;
    test_stored_lines::say_source(&mut rt.stdout(), b"numbers that neither has", counts)
}

fn replay_cases(rt: &HostRuntime, counts: &mut [usize]) -> io::Result<()> {
    replay_file(rt, "cases-read.txt", counts)?;
    replay_file(rt, "cases-write.txt", counts)?;
    test_stored_lines::say_source(&mut rt.stdout(), b"cases", counts)
}

fn main(rt: HostRuntime) -> io::Result<()> {
    let mut counts = [0usize; test_stored_lines::COUNTS];
    replay_rust(&rt, &mut counts)?;
    replay_vectors(&rt, &mut counts)?;
    replay_ticket1(&rt, &mut counts)?;
    replay_ticket2(&rt, &mut counts)?;
    replay_ticket5(&rt, &mut counts)?;
    replay_ticket7(&rt, &mut counts)?;
    replay_numbers(&rt, &mut counts)?;
    replay_cases(&rt, &mut counts)?;
    test_stored_lines::say_counts(&mut rt.stdout(), &counts)
}
