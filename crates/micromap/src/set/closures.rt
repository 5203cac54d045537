//! Keeping the items that pass a test.
ghost use Rattle.std.specs.Prelude.{◌≤◌, length};
ghost use Rattle.std.specs.Fn.{CalledAt};
ghost use Rattle.std.specs.List.Retain.{IsFiltered};
ghost use Rattle.micromap_core.specs.Closures.{IsSublist};
ghost use Rattle.micromap.specs.Items.{AreItems, MayRetainItems};

use super::Set;

impl<T: Eq + Drop, const N: usize> Set<T, N> {
    /// Keeps the items for which `keep` returns `true`, and drops the others. The kept items stay in their order. `keep`
    /// is called as by `Map::retain`.
    ///
    /// ```
    /// let mut set = Set::from([1, 2, 3]);
    /// set.retain(|item| *item != 2);
    /// assert!(rt; set.iter().eq(&[1, 3]));
    /// ```
    pub fn retain<F: FnMut(&T) -> bool>(&mut self, mut keep: F)
        requires { MayRetainItems F.FnMut keep self.old }
        ensures items { IsFiltered (CalledAt F.FnMut) keep self.old self.new }
        ensures order { IsSublist self.new self.old }
        ensures shorter { length self.new ≤ length self.old }
        ensures content { AreItems T.eq N self.old self.new }
    {
        // The clauses that are inferred of a closure would require that `keep` may always be called.
        self.map.retain(
            |x: &T, _: &mut ()|
                requires { F.pre keep x }
                ensures { CalledAt F.FnMut keep.entry x.now result keep.exit }
            { keep(x) },
        );
    }
}
