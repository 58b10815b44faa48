//! What the forms in memory share: which of their calls fail, and lists that take no memory once they were made.
ghost use Rattle.std.specs.Prelude.{◌≡◌, ◌-◌, ◌≤◌, ◌<◌, ◌++◌, ◌∷◌, [], nat_lt, vec_len, vec_capacity, true, false};
ghost use Rattle.bng_base.specs.Causes.{Rose};
ghost use Rattle.bng_plant.specs.Failing.{calls_of, one_more, fresh, is_due, goes_on};

/// Which calls are to fail, the first being 1, how many began, and how many failed. Both counts stand still at the
/// end of their type.
#[derive(Drop)]
pub struct Failing {
    pub fail_at: Vec<u64>,
    pub begun: u64,
    pub faults: u64,
}

impl Failing {
    pub fn new(fail_at: Vec<u64>) -> Failing
        ensures calls { calls_of result ≡ fresh fail_at.items }
        ensures faults { result.faults ≡ 0 }
    {
        Failing {
            fail_at,
            begun: 0,
            faults: 0,
        }
    }

    /// Whether the call that begins next is one of those that are to fail.
    pub fn is_due(&self) -> bool
        ensures { result ≡ is_due (calls_of self.now) }
    {
        let next = self.begun.saturating_add(1);
        self.fail_at.contains(&next)
    }

    /// Begins a call, and says whether it goes on: it is not one of those that are to fail, and it has room. A call
    /// that does not go on is counted as a fault.
    pub fn goes_on(&mut self, has_room: bool) -> bool
        ensures counted { calls_of self.new ≡ one_more (calls_of self.old) }
        ensures answer { result ≡ goes_on (calls_of self.old) has_room }
        ensures later { self.old.faults ≤ self.new.faults }
        ensures rose { result ≡ false → Rose self.old.faults self.new.faults }
        ensures faults { result ≡ true → self.new.faults ≡ self.old.faults }
    {
        let goes_on = !self.is_due() && has_room;
        self.begun = self.begun.saturating_add(1);
        if !goes_on {
            self.faults = self.faults.saturating_add(1);
        }
        goes_on
    }
}

/// Whether a list has room for one more.
pub fn has_room<T>(list: &Vec<T>) -> bool
    ensures { result ≡ nat_lt 0 (vec_capacity list.now - vec_len list.now) }
{
    list.len() < list.capacity()
}

/// Tells one thing more, or stops telling where the room is used up.
pub fn tell<T: Drop>(told: &mut Vec<T>, silent: &mut bool, more: T)
    ensures kept { vec_len told.old < vec_capacity told.old → silent.new ≡ silent.old }
    ensures items { vec_len told.old < vec_capacity told.old → told.new.items ≡ told.old.items ++ more ∷ [] }
    ensures silent { vec_capacity told.old ≤ vec_len told.old → silent.new ≡ true }
    ensures room { vec_capacity told.new - vec_len told.new ≡ vec_capacity told.old - vec_len told.old - 1 }
{
    if told.len() < told.capacity() {
        told.push_reserved(more);
    } else {
        *silent = true;
    }
}
