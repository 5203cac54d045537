//! Scopes of variables as a stack: a block pushes one, and pops it where it ends.

use micromap::Map;
use std::alloc::{AllocError, Global};

/// The scopes of a program that runs, the outermost first.
#[derive(Drop)]
pub struct Scopes<'a> {
    stack: Vec<Map<&'a str, i64, 8>>,
}

impl<'a> Scopes<'a> {
    /// Creates a stack without a scope.
    pub fn new(alloc: Global) -> Self {
        Scopes {
            stack: Vec::new(alloc),
        }
    }

    /// Pushes an empty scope.
    pub fn enter(&mut self) -> Result<(), AllocError> {
        self.stack.push(Map::new())?;
        Ok(())
    }

    /// Pops the innermost scope with its variables, and returns whether there was one.
    pub fn leave(&mut self) -> bool {
        self.stack.pop().is_some()
    }

    /// Sets a variable of the innermost scope, and returns whether there is a scope, and room in it.
    pub fn declare(&mut self, name: &'a str, value: i64) -> bool {
        match self.stack.last_mut() {
            Some(scope) => scope.put(name, value),
            None => false,
        }
    }

    /// Reads a variable of the innermost scope that has it.
    pub fn value_of(&self, name: &'a str) -> Option<i64> {
        self.stack
            .iter()
            .rev()
            .find_map(|scope| scope.get(&name).copied())
    }

    /// Assigns to a variable of the innermost scope that has it, and returns whether one has it.
    pub fn assign(&mut self, name: &'a str, value: i64) -> bool {
        for scope in self.stack.iter_mut().rev() {
            if let Some(old) = scope.get_mut(&name) {
                *old = value;
                return true;
            }
        }
        false
    }
}
