//! The stock of a store: a map in a struct of its own, which a contract sees as the list of the map's pairs.
ghost use Rattle.std.specs.Prelude.{◌≡◌, ◌+◌, ◌<◌, ◌^◌, [], if◌then◌else◌, length, nat_eq, unwrap_or};
ghost use Rattle.micromap.specs.Pairs.{at, fits, put_if_fits};

use micromap::Map;
use std::marker::Model;

/// How many pieces of each article a store has, for at most `N` articles.
#[derive(Drop)]
pub struct Stock<const N: usize> {
    pieces: Map<u32, u32, N>,
}

impl<const N: usize> Model for Stock<N> {
    ghost use Rattle.std.specs.Prelude.{List, ℕ};

    ghost Value = { List (ℕ × ℕ) };

    ghost view = { λ stock. stock.pieces };
}

impl<const N: usize> Stock<N> {
    /// Creates a stock of no article.
    pub fn new() -> Self
        ensures { result ≡ [] }
    {
        Stock { pieces: Map::new() }
    }

    /// Returns the number of articles.
    pub fn len(&self) -> usize
        ensures { result ≡ length self.now }
    {
        self.pieces.len()
    }

    /// Returns the number of pieces of an article.
    pub fn pieces(&self, article: u32) -> u32
        ensures { result ≡ unwrap_or (at nat_eq self.now article) 0 }
    {
        self.pieces.get_or(&article, 0)
    }

    // Sets the number of pieces of an article, and returns whether there was room for it.
    fn set(&mut self, article: u32, pieces: u32) -> bool
        ensures answer { result ≡ fits nat_eq N self.old article }
        ensures stock { self.new ≡ put_if_fits nat_eq N self.old article pieces }
    {
        self.pieces.put(article, pieces)
    }

    /// Adds pieces of an article, and returns how many there are then: none, if there is no room for the article.
    pub fn deliver(&mut self, article: u32, pieces: u32) -> u32
        requires { unwrap_or (at nat_eq self.old article) 0 + pieces < 2 ^ 32 }
        ensures answer { result ≡ (if fits nat_eq N self.old article then unwrap_or (at nat_eq self.old article) 0 + pieces else 0) }
        ensures stock { self.new ≡ put_if_fits nat_eq N self.old article (unwrap_or (at nat_eq self.old article) 0 + pieces) }
    {
        let sum = self.pieces(article) + pieces;
        self.set(article, sum);
        self.pieces(article)
    }
}
