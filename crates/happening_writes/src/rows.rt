// The effects of a point in rows, one after the other: the one place that takes a row apart.
ghost use Rattle.std.specs.Prelude.{◌≡◌, ◌≤◌};
ghost use Rattle.happening_writes.specs.Rows.{how_in, assigns, row_at};

// What is done to a number.
#[derive(Clone, Copy)]
pub enum How {
    Assigned,
    Raised,
    Lowered,
}

// What stands at a place of a list: a fact, added or deleted, with how many of its arguments are parameters and the place after it; or a number, with how
// many are parameters and the place of its right side. Its form is after the first byte.
#[derive(Clone, Copy)]
pub enum Row {
    Fact {
        added: bool,
        params: usize,
        next: usize,
    },
    Number {
        how: How,
        params: usize,
        right: usize,
    },
}

impl How {
    pub fn assigns(self) -> bool
        ensures { result ≡ assigns self }
    {
        match self {
            How::Assigned => true,
            How::Raised | How::Lowered => false,
        }
    }
}

// From 12 on a number is assigned, from 15 raised, from 18 lowered.
fn how_in(tag: usize) -> How
    ensures { result ≡ how_in tag }
{
    if tag < 15 {
        How::Assigned
    } else if tag < 18 {
        How::Raised
    } else {
        How::Lowered
    }
}

// The first byte: 4 to 7 add a fact with none to three parameters, 8 to 11 delete it; from 12 to 20 something is done to a number with none to two.
// Any other ends the list.
#[tactic(auto, unfolding(crate::specs::Rows::row_at, crate::specs::Rows::row_of, crate::specs::Rows::params_of, domain_prepared_meaning::specs::Decode::effect_at, domain_prepared_meaning::specs::Decode::begins_effect))]
pub fn effect_at(rows: &[u8], at: usize) -> Option<Row>
    ensures { result ≡ row_at rows.now at }
{
    if rows.len() <= at {
        return None;
    }
    let tag = happening_forms::cell(rows, at);
    match tag {
        0..=3 => None,
        4..=11 => {
            let params = tag % 4;
            let next = at + 3 + params;
            Some(Row::Fact {
                added: tag < 8,
                params,
                next,
            })
        }
        12..=20 => {
            let params = tag % 3;
            Some(Row::Number {
                how: how_in(tag),
                params,
                right: at + 3 + params,
            })
        }
        _ => None,
    }
}
