//! How many rows of stories went as they say.

ghost use Rattle.std.specs.Prelude.{◌≡◌, ◌↔◌, ◌+◌, ◌-◌, ◌^◌, min, false, IsTrue};

/// How many stories were played, how many rows, and how many of these went otherwise. No count goes beyond 2^32 - 1.
#[derive(Clone, Copy)]
pub(crate) struct Tally {
    pub(crate) stories: u32,
    pub(crate) rows: u32,
    pub(crate) wrong: u32,
}

impl Tally {
    /// The tally before the first story.
    pub(crate) fn new() -> Tally
        ensures stories { result.stories ≡ 0 }
        ensures rows { result.rows ≡ 0 }
        ensures wrong { result.wrong ≡ 0 }
    {
        Tally {
            stories: 0,
            rows: 0,
            wrong: 0,
        }
    }

    /// Counts a row, which went as its story says or otherwise.
    pub(crate) fn count_row(&mut self, is_right: bool)
        ensures rows { self.new.rows ≡ min (self.old.rows + 1) (2 ^ 32 - 1) }
        ensures right { IsTrue is_right → self.new.wrong ≡ self.old.wrong }
        ensures wrong { is_right ≡ false → self.new.wrong ≡ min (self.old.wrong + 1) (2 ^ 32 - 1) }
        ensures stories { self.new.stories ≡ self.old.stories }
    {
        self.rows = self.rows.saturating_add(1);
        if !is_right {
            self.wrong = self.wrong.saturating_add(1);
        }
    }

    /// Counts a story whose rows are counted.
    pub(crate) fn count_story(&mut self)
        ensures stories { self.new.stories ≡ min (self.old.stories + 1) (2 ^ 32 - 1) }
        ensures rows { self.new.rows ≡ self.old.rows }
        ensures wrong { self.new.wrong ≡ self.old.wrong }
    {
        self.stories = self.stories.saturating_add(1);
    }

    /// Whether each row went as its story says.
    pub(crate) fn is_clean(&self) -> bool
        ensures yes { IsTrue result ↔ (self.now.wrong ≡ 0) }
    {
        self.wrong == 0
    }
}
