// How often each thing happened: for tests, and of no weight for what a chip does.
ghost use Rattle.std.specs.Prelude.{◌≡◌, ℕ, ◌-◌, max, if◌then◌else◌, nat_le};
ghost use Rattle.bench.specs.Counted.{noted, shown};

use drive::Answer;

// How often a chip was asked for one thing while the power was on, how often that failed, and how often the power
// went in it.
#[derive(Clone, Copy, Default)]
pub struct Tries {
    pub made: u64,
    pub failed: u64,
    pub cut: u64,
}

impl Tries {
    // An ask that was answered so.
    pub fn note(&mut self, answer: Answer)
        ensures { self.new ≡ noted answer self.old }
    {
        self.made = self.made.saturating_add(1);
        match answer {
            Answer::Fine => {}
            Answer::Failed => self.failed = self.failed.saturating_add(1),
            Answer::Dark => self.cut = self.cut.saturating_add(1),
        }
    }
}

// How a reading shows a torn page: with all, some or none of its noughts.
#[derive(Clone, Copy)]
pub enum View {
    Whole,
    Part,
    Blank,
}

// How often a torn page was shown so.
#[derive(Clone, Copy, Default)]
pub struct Shown {
    pub whole: u64,
    pub part: u64,
    pub blank: u64,
}

impl Shown {
    // A torn page that was shown so.
    pub fn note(&mut self, view: View)
        ensures { self.new ≡ shown view self.old }
    {
        match view {
            View::Whole => self.whole = self.whole.saturating_add(1),
            View::Part => self.part = self.part.saturating_add(1),
            View::Blank => self.blank = self.blank.saturating_add(1),
        }
    }
}

// Asks of each kind, bits that were turned over, how torn pages were shown, how many asks were allowed last, and the
// most that were made of what was allowed: for a turn, which is allowed at most 64, and for a coming-up, which is
// allowed more.
#[derive(Clone, Copy, Default)]
pub struct Counts {
    pub reads: Tries,
    pub programs: Tries,
    pub erasings: Tries,
    pub turned_bits: u64,
    pub shown: Shown,
    pub allowed: u64,
    pub most_turn: u64,
    pub most_rise: u64,
}

impl Counts {
    // A reading that was answered so.
    pub fn add_read(&mut self, answer: Answer)
        ensures { self.new ≡ record self.old { reads = noted answer self.old.reads } }
    {
        self.reads.note(answer);
    }

    // A programming that was answered so.
    pub fn add_program(&mut self, answer: Answer)
        ensures { self.new ≡ record self.old { programs = noted answer self.old.programs } }
    {
        self.programs.note(answer);
    }

    // An erasing that was answered so.
    pub fn add_erasing(&mut self, answer: Answer)
        ensures { self.new ≡ record self.old { erasings = noted answer self.old.erasings } }
    {
        self.erasings.note(answer);
    }

    // So many asks are allowed from here on; of those allowed before so many are left.
    pub fn allow(&mut self, asks: u64, left: u64)
        ensures turn { self.new.most_turn ≡ (if nat_le self.old.allowed 64 then max self.old.most_turn (self.old.allowed - left) else self.old.most_turn) }
        ensures rise { self.new.most_rise ≡ (if nat_le self.old.allowed 64 then self.old.most_rise else max self.old.most_rise (self.old.allowed - left)) }
        ensures allowed { self.new.allowed ≡ asks }
    {
        let made = self.allowed.saturating_sub(left);
        if self.allowed <= 64 {
            self.most_turn = self.most_turn.max(made);
        } else {
            self.most_rise = self.most_rise.max(made);
        }
        self.allowed = asks;
    }
}
