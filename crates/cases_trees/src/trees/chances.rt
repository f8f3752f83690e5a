//! Numbers that look random, and small numbers as the names of items.

pub const MENU: u8 = 8;

const MOBILE: u8 = 9;

pub const PLACES: u8 = 10;

pub const TOOLBAR: u8 = 11;

pub const UNFILED: u8 = 12;

/// The names: eight items, the roots, `places`, and an id that no row has. Numbers are in the order of the names.
pub fn name(number: u8) -> &'static str {
    match number {
        0 => "a",
        1 => "b",
        2 => "c",
        3 => "d",
        4 => "e",
        5 => "f",
        6 => "g",
        7 => "h",
        MENU => "menu",
        MOBILE => "mobile",
        PLACES => "places",
        TOOLBAR => "toolbar",
        UNFILED => "unfiled",
        _ => "x",
    }
}

/// Whether a number is that of a root.
pub fn is_root(number: u8) -> bool {
    matches!(number, MENU | MOBILE | TOOLBAR | UNFILED)
}

/// A fixed sequence of numbers that look random.
#[derive(Drop)]
pub struct Dice {
    state: u64,
}

impl Dice {
    pub fn new(state: u64) -> Dice {
        Dice { state }
    }

    fn roll(&mut self) -> u64 {
        self.state = self
            .state
            .wrapping_mul(6_364_136_223_846_793_005)
            .wrapping_add(1_442_695_040_888_963_407);
        self.state >> 33
    }

    /// A number below a bound; 0 where that is 0.
    pub fn below(&mut self, bound: u8) -> u8 {
        let rolled = self.roll();
        if bound == 0 {
            return 0;
        }
        (rolled % u64::from(bound)) as u8
    }

    /// A number below a greater bound; 0 where that is 0.
    pub fn below_wide(&mut self, bound: u32) -> u32 {
        let rolled = self.roll();
        if bound == 0 {
            return 0;
        }
        (rolled % u64::from(bound)) as u32
    }
}
