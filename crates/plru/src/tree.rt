ghost use Rattle.std.specs.Prelude.{◌≡◌, ◌<◌, true};
ghost use Rattle.plru.specs.Tree.{is_tree, levels, path_mask, path_value, touched, victim};

// The tree over 2, 4 or 8 ways.
#[derive(Clone, Copy)]
pub struct Tree {
    pub ways: u8,
    ghost size: { is_tree ways ≡ true },
}

// The bits of the tree above a way, and what an access of the way sets them to: each names the half without the way.
// Each size of tree has constant rows of its own: a rule of the project (docs/DECISIONS.md, Forms).
// Bit p of a set is the one of place p: place 1 is the root, place p has the halves 2p and 2p + 1.
#[derive(Clone, Copy)]
struct PathBits {
    mask: u8,
    value: u8,
}

const PATHS_OF_2: [PathBits; 2] = [
    PathBits {
        mask: 0b10, // way 0
        value: 0b10,
    },
    PathBits {
        mask: 0b10, // way 1
        value: 0b00,
    },
];

const PATHS_OF_4: [PathBits; 4] = [
    PathBits {
        mask: 0b0110, // way 0
        value: 0b0110,
    },
    PathBits {
        mask: 0b0110, // way 1
        value: 0b0010,
    },
    PathBits {
        mask: 0b1010, // way 2
        value: 0b1000,
    },
    PathBits {
        mask: 0b1010, // way 3
        value: 0b0000,
    },
];

const PATHS_OF_8: [PathBits; 8] = [
    PathBits {
        mask: 0b0001_0110, // way 0
        value: 0b0001_0110,
    },
    PathBits {
        mask: 0b0001_0110, // way 1
        value: 0b0000_0110,
    },
    PathBits {
        mask: 0b0010_0110, // way 2
        value: 0b0010_0010,
    },
    PathBits {
        mask: 0b0010_0110, // way 3
        value: 0b0000_0010,
    },
    PathBits {
        mask: 0b0100_1010, // way 4
        value: 0b0100_1000,
    },
    PathBits {
        mask: 0b0100_1010, // way 5
        value: 0b0000_1000,
    },
    PathBits {
        mask: 0b1000_1010, // way 6
        value: 0b1000_0000,
    },
    PathBits {
        mask: 0b1000_1010, // way 7
        value: 0b0000_0000,
    },
];

impl Tree {
    // The row of a way in the table of its tree.
    fn path_bits(self, way: u8) -> PathBits
        requires { way < self.ways }
        ensures mask { result.mask ≡ path_mask self.ways way }
        ensures value { result.value ≡ path_value self.ways way }
    {
        match self.ways {
            2 => PATHS_OF_2[way as usize],
            4 => PATHS_OF_4[way as usize],
            _ => PATHS_OF_8[way as usize],
        }
    }

    // The bits after an access of a way.
    pub fn touch(self, bits: u8, way: u8) -> u8
        requires { way < self.ways }
        ensures { result ≡ touched self.ways way bits }
    {
        let path = self.path_bits(way);
        (bits & !path.mask) | path.value
    }

    // The way that the bits lead to: from the root on, each bit names the half to go on in.
    pub fn victim(self, bits: u8) -> u8
        ensures { result ≡ victim self.ways bits }
    {
        // a loop, since a fold's closure would have to take any place, and twice that may not fit
        let mut place: u8 = 1;
        for _level in 0..self.levels() {
            place = 2 * place + ((bits >> place) & 1);
        }
        place - self.ways
    }

    // The inner places above a way.
    pub fn levels(self) -> u8
        ensures { result ≡ levels self.ways }
    {
        match self.ways {
            2 => 1,
            4 => 2,
            _ => 3,
        }
    }
}
