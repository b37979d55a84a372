// A line of `gainlist`, without its line feed, read as a card's fields.
ghost use Rattle.std.specs.Prelude.{◌≡◌, length, get_or};
ghost use Rattle.std.specs.Float.{nan};
ghost use Rattle.card_line.specs.Line.{fields_of, line_of};
ghost use Rattle.card_line.specs.TenFields.{DecimalsDone};

use cards::Fields;
use parameters::Model;

const BYTES: usize = 119;

// The values of the ten fields of 11 columns, where all of them are numbers.
#[tactic(auto, using(crate::proofs::TenFields::fields_read))]
fn read_decimals(s: &[u8]) -> Option<[f32; 10]>
    requires { length s.now ≡ 119 }
    ensures { DecimalsDone s.now result }
{
    let mut values = [0.0f32; 10];
    for k in 0..10 {
        let a = 9 + 11 * k;
        values[k] = field_reading::read_decimal(&s[a..a + 11])?;
    }
    Some(values)
}

// The values are the off-azimuth and slots 3, 4, 6 to 12.
#[tactic(auto, unfolding(crate::specs::Line::fields_of, single::proofs::Literals::round, single::proofs::Literals::of_bits))]
fn card_fields(kop: i32, first: i32, last: i32, values: [f32; 10]) -> Fields
    ensures { result ≡ fields_of kop first last (λ k. get_or values k nan) }
{
    let slots = [
        0.0, 0.0, values[1], values[2], 0.0, values[3], values[4], values[5], values[6], values[7],
        values[8], values[9], 0.0, 0.0, 0.0, 0.0, 0.0, 0.0, 0.0, 0.0,
    ];
    Fields {
        kop,
        first,
        last,
        toaz: values[0],
        slots,
        model: Model::Compatible,
    }
}

// No card's fields where the line is malformed.
#[tactic(auto, using(crate::proofs::Answers::lines_read))]
pub fn read_line(s: &[u8]) -> Option<Fields>
    ensures { result ≡ line_of s.now }
{
    if s.len() != BYTES {
        return None;
    }
    let kop = field_reading::read_integer(&s[0..3])?;
    let first = field_reading::read_integer(&s[3..6])?;
    let last = field_reading::read_integer(&s[6..9])?;
    let values = read_decimals(s)?;
    Some(card_fields(kop as i32, first as i32, last as i32, values))
}
