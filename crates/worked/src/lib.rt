// Settings that are worked out: a table of cases, proved as one group.
#![tactic(auto)]

ghost use Rattle.std.specs.Prelude.{◌≡◌, length};
ghost use Rattle.std.specs.List.{slice_get};
ghost use Rattle.std.specs.Option.{option_map};
ghost use Rattle.worked.specs.Table.{table};
ghost use Rattle.worked.specs.Cases.{AllRight};
ghost use Rattle.worked.specs.Shown.{shown};

mod cases;

pub use cases::{Case, Hold};
use kinds::plain::CardName;

// How many cases the table has. Each is right: on its card, its setting is the first that fits its pairs and holds, or none fits.
pub fn case_count() -> usize
    ensures right { AllRight table }
    ensures count { result ≡ length table }
{
    13
}

// The case at an index; none past the last. A match, since no static holds structs with slices today.
pub fn case(index: usize) -> Option<Case>
    ensures { option_map shown result ≡ slice_get table index }
{
    match index {
        0 => Some(Case {
            card: CardName { kind: 2, lines: 6 },
            pairs: &[2, 4, 1, 5, 0, 3],
            holds: &[],
            setting: Some(&[4, 1, 0, 1, 0]),
        }),
        1 => Some(Case {
            card: CardName { kind: 1, lines: 6 },
            pairs: &[2, 4, 1, 5, 0, 3],
            holds: &[],
            setting: Some(&[4, 1, 0, 2, 1]),
        }),
        2 => Some(Case {
            card: CardName { kind: 17, lines: 6 },
            pairs: &[2, 4, 1, 5, 0, 3],
            holds: &[],
            setting: Some(&[4, 2, 0, 1, 1]),
        }),
        3 => Some(Case {
            card: CardName { kind: 3, lines: 4 },
            pairs: &[3, 2, 1, 0],
            holds: &[],
            setting: Some(&[0, 0, 1, 1, 1, 1]),
        }),
        4 => Some(Case {
            card: CardName { kind: 3, lines: 4 },
            pairs: &[3, 2, 1, 0],
            holds: &[Hold {
                cell: 3,
                position: 0,
            }],
            setting: Some(&[1, 0, 1, 0, 1, 1]),
        }),
        5 => Some(Case {
            card: CardName { kind: 3, lines: 4 },
            pairs: &[3, 2, 1, 0],
            holds: &[
                Hold {
                    cell: 3,
                    position: 0,
                },
                Hold {
                    cell: 0,
                    position: 0,
                },
            ],
            setting: None,
        }),
        6 => Some(Case {
            card: CardName { kind: 3, lines: 4 },
            pairs: &[0, 2, 1, 3],
            holds: &[],
            setting: Some(&[0, 1, 0, 1, 0, 1]),
        }),
        7 => Some(Case {
            card: CardName { kind: 3, lines: 4 },
            pairs: &[0, 2, 1, 3],
            holds: &[Hold {
                cell: 4,
                position: 1,
            }],
            setting: Some(&[1, 0, 1, 0, 1, 0]),
        }),
        8 => Some(Case {
            card: CardName { kind: 3, lines: 4 },
            pairs: &[0, 2, 1, 3],
            holds: &[
                Hold {
                    cell: 4,
                    position: 1,
                },
                Hold {
                    cell: 5,
                    position: 1,
                },
            ],
            setting: None,
        }),
        9 => Some(Case {
            card: CardName { kind: 4, lines: 4 },
            pairs: &[0, 1, 255, 255],
            holds: &[],
            setting: None,
        }),
        10 => Some(Case {
            card: CardName { kind: 4, lines: 4 },
            pairs: &[0, 2, 255, 255],
            holds: &[],
            setting: Some(&[0, 0, 0, 0]),
        }),
        11 => Some(Case {
            card: CardName { kind: 1, lines: 3 },
            pairs: &[1, 255, 255],
            holds: &[Hold {
                cell: 0,
                position: 1,
            }],
            setting: Some(&[1, 1]),
        }),
        12 => Some(Case {
            card: CardName { kind: 1, lines: 3 },
            pairs: &[0, 255, 255],
            holds: &[Hold {
                cell: 0,
                position: 1,
            }],
            setting: None,
        }),
        _ => None,
    }
}
