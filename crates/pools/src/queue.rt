//! One queue for elements of every copied kind, over a table that its caller lends at each call.
//! The queue keeps only where it begins and how long it is; the table is a ring. That the table is lent is a rule of
//! the project, so what fits it stands in clauses: it is a fact of two values that meet only at a call.

ghost use Rattle.std.specs.Prelude.{◌≡◌, ◌+◌, ◌<◌, true, false, [], ◌∷◌, ◌++◌, length, if◌then◌else◌, MatchOption, nat_lt};
ghost use Rattle.pools.specs.Contents.{contents, Fits, first, rest};

#[derive(Clone, Copy, Debug, PartialEq, Eq)]
pub struct Queue {
    pub(crate) head: usize,
    pub(crate) len: usize,
}

impl Queue {
    /// The empty queue.
    pub fn new() -> Queue
        ensures { (result.head ≡ 0) × (result.len ≡ 0) }
    {
        Queue { head: 0, len: 0 }
    }

    /// The queue that holds the whole table, from its first place on.
    pub fn whole<E>(table: &[E]) -> Queue
        requires { 0 < length table.now }
        ensures fits { Fits table.now result }
        ensures queue { contents table.now result ≡ table.now }
        ensures len { result.len ≡ length table.now }
    {
        Queue {
            head: 0,
            len: table.len(),
        }
    }

    pub fn len(&self) -> usize
        ensures { result ≡ self.now.len }
    {
        let Queue { len, .. } = *self;
        len
    }

    /// Puts an element behind the last; where the table is full it only says so. A plain answer: nothing goes with it.
    pub fn put<E: Copy>(&mut self, table: &mut [E], x: E) -> bool
        requires { Fits table.old self.old }
        ensures fits { Fits table.new self.new }
        ensures answer { result ≡ nat_lt self.old.len (length table.old) }
        ensures queue { contents table.new self.new ≡ (if result then contents table.old self.old ++ x ∷ [] else contents table.old self.old) }
        ensures len { self.new.len ≡ (if result then self.old.len + 1 else self.old.len) }
        ensures full { result ≡ false → (self.new ≡ self.old) × (table.new ≡ table.old) }
    {
        let cap = table.len();
        if self.len == cap {
            return false;
        }
        let room = cap - self.head;
        let place = if self.len < room {
            self.head + self.len
        } else {
            self.len - room
        };
        table[place] = x;
        self.len += 1;
        true
    }

    /// Takes the first element; where there is none it only says so.
    pub fn take<E: Copy>(&mut self, table: &[E]) -> Option<E>
        requires { Fits table.now self.old }
        ensures fits { Fits table.now self.new }
        ensures front { result ≡ first (contents table.now self.old) }
        ensures queue { contents table.now self.new ≡ rest (contents table.now self.old) }
        ensures len { MatchOption result ((self.old.len ≡ 0) × (self.new.len ≡ 0)) (λ _. self.new.len + 1 ≡ self.old.len) }
        ensures empty { self.old.len ≡ 0 → self.new ≡ self.old }
    {
        if self.len == 0 {
            return None;
        }
        let x = table[self.head];
        let next = self.head + 1;
        self.head = if next == table.len() { 0 } else { next };
        self.len -= 1;
        Some(x)
    }
}
