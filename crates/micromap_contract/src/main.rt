//! Adds a few people with their ages, as far as there is room.
#![tactic(auto, using(micromap::proofs::Rules::caller))]

ghost use Rattle.std.specs.Prelude.{◌≡◌};
ghost use Rattle.micromap.specs.Pairs.{fits, put_if_fits};
ghost use Rattle.micromap.specs.Texts.{str_eq};

use micromap::Map;
use std::io;

/// Adds a person if there is room, or sets the age of one who is there, and returns whether it did.
pub fn add<'a>(ages: &mut Map<&'a str, u32, 2>, name: &'a str, age: u32) -> bool
    ensures answer { result ≡ fits str_eq 2 ages.old name.entry }
    ensures ages { ages.new ≡ put_if_fits str_eq 2 ages.old name.entry age }
{
    ages.put(name, age)
}

fn main(rt: HostRuntime) -> io::Result<()> {
    let mut ages = Map::new();
    for (name, age) in [("Ada", 36), ("Alan", 41), ("Grace", 85)] {
        if !add(&mut ages, name, age) {
            println!(rt; "no room for {name}")?;
        }
    }
    Ok(())
}
