//! The first lines of the README, and what they print.
#![tactic(auto)]

use rangemap::RangeMap;
use std::io;

fn main(rt: HostRuntime) -> io::Result<()> {
    let mut rota = RangeMap::from(rt.alloc(), [(0..9u32, "Ann")])?;
    rota.insert(3..6, "Bob")?;
    println!(rt; "{rota:?}")?;
    rota.insert(3..6, "Ann")?;
    println!(rt; "{rota:?}")?;
    rota.remove(2..7)?;
    println!(rt; "{rota:?}, and at 8 {:?}", rota.get(&8))?;
    for gap in rota.gaps(&(0..9)) {
        println!(rt; "nobody in {:?}", gap?)?;
    }
    Ok(())
}
