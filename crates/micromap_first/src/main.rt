//! Keeps the ages of a few people, as far as there is room.
#![tactic(auto)]

use micromap::Map;
use std::io;

fn main(rt: HostRuntime) -> io::Result<()> {
    let mut ages: Map<&str, u32, 2> = Map::new();
    for (name, age) in [("Ada", 36), ("Alan", 41), ("Grace", 85)] {
        if !ages.put(name, age) {
            println!(rt; "no room for {name}")?;
        }
    }
    match ages.get(&"Alan") {
        Some(age) => println!(rt; "Alan is {age}")?,
        None => println!(rt; "nobody is named Alan")?,
    }
    ages.remove(&"Alan");
    for (name, age) in &ages {
        println!(rt; "{name} stays, aged {age}")?;
    }
    Ok(())
}
