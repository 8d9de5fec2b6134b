//! A trial of TCP on one thread: what is answered to a request that was written to a port of this machine.
#![tactic(auto)]

use std::alloc::Global;
use std::io;
use std::io::{Error, ErrorKind, Read, Write};
use std::net::TcpStream;
use std::rt::HostRuntime;
use vmv_desk::Desk;
use vmv_door::Door;
use vmv_edge::Link;
use vmv_http::{Served, serve_one};
use vmv_keeper::{MemoryJudge, MemoryKeeper};
use vmv_tcp::TcpDoor;

// A request for the base of a project that there isn't.
const REQUEST: &[u8] = b"GET /projects/ann/shop/base HTTP/1.1\r\nHost: x\r\nX-Member: eve\r\n\r\n";

// A failure that the trial didn't look for.
fn unexpected() -> Error {
    Error::from(ErrorKind::Other)
}

// Serves a link over a store in memory without rows, and answers how, with the link's faults.
fn serve<L: Link>(alloc: Global, link: &mut L) -> io::Result<(Served, u64)> {
    let Ok(mut desk) = Desk::start(alloc, MemoryKeeper::new(alloc, Vec::new(alloc))) else {
        return Err(unexpected());
    };
    let served = serve_one(alloc, link, &mut desk, &MemoryJudge::new(alloc));
    Ok((served, link.faults()))
}

// Writes the request to the door's port, serves the link that the door gives, and answers what was read at the port.
fn exchange(rt: &HostRuntime, door: &mut TcpDoor<'_>) -> io::Result<Vec<u8>> {
    let address = door.address().ok_or(unexpected())?;
    let mut peer = TcpStream::connect(rt, address)?;
    peer.write_all(REQUEST)?;
    let Ok(Some(mut link)) = door.next() else {
        return Err(unexpected());
    };
    let (served, faults) = serve(rt.alloc(), &mut link)?;
    println!(rt;
        "served with {faults} faults: {}",
        matches!(served, Served::Answered { status: 404 })
    )?;
    door.give_back(link);
    let mut answer = Vec::new(rt.alloc());
    peer.read_to_end(&mut answer)?;
    Ok(answer)
}

fn main(rt: HostRuntime) -> io::Result<()> {
    let mut door = TcpDoor::new(&rt);
    println!(&rt;
        "a door that doesn't listen gives a link: {}",
        door.next().is_ok()
    )?;
    println!(&rt;
        "it listens at an address without a port: {}",
        door.listen("127.0.0.1").is_ok()
    )?;
    println!(&rt; "faults {}", door.faults())?;
    println!(&rt;
        "it listens at a free port: {}",
        door.listen("127.0.0.1:0").is_ok()
    )?;
    let answer = exchange(&rt, &mut door)?;
    rt.stdout().write_all(&answer)?;
    println!(&rt; "")?;
    println!(&rt; "faults {}", door.faults())
}
