// Prints packets and their messages: of a feed, where they follow one another, or of a session file.
#![tactic(auto)]

mod packets;
mod show;

use crate::packets::Packets;
use crate::show::Shown;
use feed::packet::Packet;
use sessionfile::file::SessionFile;
use std::io::Read;
use std::{env, fs, io};

fn show_feed(rt: &HostRuntime, bytes: &[u8]) -> io::Result<()> {
    for (at, packet) in Packets::new(bytes) {
        match packet {
            Ok(packet) => show_packet(rt, at, packet)?,
            Err(refusal) => println!(rt; "packet {at} {refusal}")?,
        }
    }
    Ok(())
}

// A session file: its header, its symbols, and then its packets by their index from 1.
fn show_file(rt: &HostRuntime, bytes: &[u8]) -> io::Result<()> {
    let file = match SessionFile::open(bytes) {
        Ok(file) => file,
        Err(refusal) => return println!(rt; "file {refusal}"),
    };
    println!(rt; "file {}", Shown(file.header()))?;
    for symbol in file.symbols() {
        println!(rt; "symbol {}", Shown(*symbol))?;
    }
    for (index, packet) in (1u32..).zip(file.entries()) {
        show_packet(rt, index as usize, packet)?;
    }
    Ok(())
}

// A packet is read as one of its own subscription.
fn show_packet(rt: &HostRuntime, at: usize, bytes: &[u8]) -> io::Result<()> {
    let subscription = bytes.get(3).copied().unwrap_or(0);
    let packet = match Packet::read(bytes, subscription) {
        Ok(packet) => packet,
        Err(refusal) => return println!(rt; "packet {at} {refusal}"),
    };
    println!(rt; "packet {at} {}", Shown(packet.header()))?;
    for item in packet.messages() {
        match item {
            Ok((offset, message)) => println!(rt; "  {offset} {}", Shown(message))?,
            Err(refusal) => println!(rt; "  {refusal}")?,
        }
    }
    Ok(())
}

fn show_input(rt: &HostRuntime) -> io::Result<()> {
    let mut bytes = Vec::new(rt.alloc());
    rt.stdin().read_to_end(&mut bytes)?;
    show_feed(rt, bytes.as_slice())
}

// Each argument names a session file, or with `-` the feed on standard input, which is also read where there is none.
fn main(rt: HostRuntime) -> io::Result<()> {
    let mut names = env::args(&rt)?.skip(1).peekable();
    if names.peek().is_none() {
        return show_input(&rt);
    }
    for name in names {
        if name.as_str() == "-" {
            show_input(&rt)?;
        } else {
            let bytes = fs::read(&rt, name.as_str())?;
            show_file(&rt, bytes.as_slice())?;
        }
    }
    Ok(())
}
