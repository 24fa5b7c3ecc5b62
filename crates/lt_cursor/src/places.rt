ghost use Rattle.std.specs.Prelude.{◌≡◌, ◌<◌, nat_eq};
ghost use Rattle.lt_cursor.specs.Places.{first_place, behind_first};

/// Places from one up to another, read upward or, with `down`, downward.
#[derive(Debug, Drop)]
pub struct Places {
    pub from: u64,
    pub to: u64,
    pub down: bool,
}

impl Places {
    pub fn is_empty(&self) -> bool
        ensures { result ≡ nat_eq self.now.from self.now.to }
    {
        self.from == self.to
    }

    /// The first place in the order of reading, which is left out.
    pub fn take_first(&mut self) -> u64
        requires { self.old.from < self.old.to }
        ensures first { result ≡ first_place self.old }
        ensures rest { self.new ≡ behind_first self.old }
    {
        if self.down {
            self.to -= 1;
            self.to
        } else {
            self.from += 1;
            self.from - 1
        }
    }
}
