// The readings of an input, row after row.
ghost use Rattle.std.specs.Prelude.{◌≡◌, [], ◌∷◌, Some};
ghost use Rattle.std.specs.Option.{option_map};
ghost use Rattle.listing.specs.Rows.{Gains, kept};

use std::alloc::Global;

// Readings, as long as there is memory for them: once it lacks there are none, and those that follow are dropped.
#[derive(Drop)]
pub(crate) struct Readings {
    list: Option<Vec<u16>>,
}

impl Readings {
    // No readings yet.
    pub(crate) fn new(heap: Global) -> Readings
        ensures { kept result ≡ Some [] }
    {
        Readings {
            list: Some(Vec::new(heap)),
        }
    }

    // Puts a reading at the end.
    pub(crate) fn push(&mut self, reading: u16)
        ensures { Gains (kept self.old) (kept self.new) (reading ∷ []) }
    {
        let Some(mut list) = self.list.take() else {
            return;
        };
        if list.push(reading).is_ok() {
            self.list = Some(list);
        }
    }

    // All readings; none where memory lacked.
    pub(crate) fn into_list(self) -> Option<Vec<u16>>
        ensures { option_map (λ list. list.items) result ≡ kept self }
    {
        self.list
    }
}
