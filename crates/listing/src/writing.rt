// The printed lines, each written into a buffer.
ghost use Rattle.std.specs.Prelude.{◌≡◌, ◌+◌, ◌-◌, ◌≤◌};
ghost use Rattle.table.specs.Table.{row_count};
ghost use Rattle.output.specs.Field.{integer_field};
ghost use Rattle.output.specs.Hundredths.{hundredths_field};
ghost use Rattle.listing.specs.Written.{HasRoom, Written};
ghost use Rattle.listing.specs.Text.{line_feed, heading_text, row_text, rows_text, counts_text};

use deck::Deck;
use table::{COLUMNS, GAINS, Table};

// The next byte is written at `at`.
#[derive(Drop)]
pub(crate) struct Writer<'a> {
    pub out: &'a mut [u8],
    pub at: usize,
}

impl Writer<'_> {
    #[tactic(auto, using(output::proofs::Field::field_length, crate::proofs::Buffer::field, crate::proofs::Printed::handed))]
    fn integer(&mut self, v: i64, width: usize)
        requires { HasRoom self.old width }
        ensures { Written self.old (integer_field v width) self.new }
    {
        let end = self.at + width;
        output::i(v, &mut self.out[self.at..end]);
        self.at = end;
    }

    #[tactic(auto, using(output::proofs::Printed::hundredths_field_length, crate::proofs::Buffer::field))]
    fn hundredths(&mut self, x: f32, width: usize)
        requires { HasRoom self.old width }
        ensures { Written self.old (hundredths_field x width) self.new }
    {
        let end = self.at + width;
        output::hundredths_field(x, &mut self.out[self.at..end]);
        self.at = end;
    }

    #[tactic(auto, using(crate::proofs::Buffer::one_byte))]
    fn line_feed(&mut self)
        requires { HasRoom self.old 1 }
        ensures { Written self.old line_feed self.new }
    {
        self.out[self.at] = b'\n';
        self.at += 1;
    }

    // The refusal is a number here, since that is what is printed.
    #[tactic(auto, using(output::proofs::Field::field_length))]
    pub(crate) fn heading(&mut self, place: u32, kop: i32, refusal: u32)
        requires { HasRoom self.old 14 }
        ensures { Written self.old (heading_text place kop refusal) self.new }
    {
        self.integer(place as i64, 7);
        self.integer(kop as i64, 3);
        self.integer(refusal as i64, 3);
        self.line_feed();
    }

    // m is asked to be a row's number: a type for it would be made and taken apart at each row.
    #[tactic(auto, using(output::proofs::Field::field_length, output::proofs::Printed::hundredths_field_length))]
    fn row(&mut self, table: &Table, m: usize)
        requires { (1 ≤ m) × (m ≤ row_count) × HasRoom self.old 18 }
        ensures { Written self.old (row_text table.now m) self.new }
    {
        let efficiency = table[GAINS + (m - 1)];
        let gain = table[(m - 1) * COLUMNS];
        self.integer(m as i64, 3);
        self.hundredths(efficiency, 7);
        self.hundredths(gain, 7);
        self.line_feed();
    }

    // From `first` to `last` MHz.
    #[tactic(auto, using(crate::proofs::Printed::rows_start, crate::proofs::Printed::rows_room, crate::proofs::Printed::rows_step, crate::proofs::Printed::rows_last))]
    pub(crate) fn rows(&mut self, table: &Table, first: usize, last: usize)
        requires { (1 ≤ first) × (first ≤ last) × (last ≤ row_count) × HasRoom self.old 540 }
        ensures { Written self.old (rows_text table.now first (last + 1 - first)) self.new }
    {
        for m in first..=last {
            self.row(table, m);
        }
    }

    #[tactic(auto, using(output::proofs::Field::field_length))]
    pub(crate) fn counts(&mut self, deck: Deck)
        requires { HasRoom self.old 15 }
        ensures { Written self.old (counts_text deck.accepted deck.refused) self.new }
    {
        self.integer(deck.accepted as i64, 7);
        self.integer(deck.refused as i64, 7);
        self.line_feed();
    }
}
