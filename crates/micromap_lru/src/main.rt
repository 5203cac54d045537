//! Uses a cache with room for two values, and prints what is found. It makes the calls of the Rust crate's example.
#![tactic(auto)]

use micromap_examples::lru_cache::LruCache;
use std::io;

fn main(rt: HostRuntime) -> io::Result<()> {
    let mut cache: LruCache<u32, u32, 2> = LruCache::new();
    cache.put(1, 1);
    cache.put(2, 2);
    println!(rt; "{:?}", cache.get(&1))?;
    cache.put(3, 3);
    println!(rt; "{:?}", cache.get(&2))?;
    cache.put(4, 4);
    println!(rt; "{:?}", cache.get(&1))?;
    println!(rt; "{:?}", cache.get(&3))?;
    println!(rt; "{:?}", cache.get(&4))?;
    Ok(())
}
