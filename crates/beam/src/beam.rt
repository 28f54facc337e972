ghost use Rattle.std.specs.Prelude.{◌≡◌, [], ◌∷◌};
ghost use Rattle.beam.specs.declared.beam.Axis.TheVariants.{Trolley, Slew, Hoist};
ghost use Rattle.store.specs.Meaning.{arity};
ghost use Rattle.beam.specs.Kinds.{pose_kind, step_of};

use std::fmt;

// What a beam's tag says, and how the crane has to move for it.
#[derive(Clone, Copy)]
pub struct Beam {
    pub mark: i32,
    pub weight: i32,
    pub floor: i32,
    pub trolley: i32,
    pub slew: i32,
    pub hoist: i32,
}

impl Beam {
    // How far each axis moves, in the order in which they do.
    pub fn moves(&self) -> [(Axis, i32); 3]
        ensures { result ≡ (Trolley, self.now.trolley) ∷ ((Slew, self.now.slew) ∷ ((Hoist, self.now.hoist) ∷ [])) }
    {
        [
            (Axis::Trolley, self.trolley),
            (Axis::Slew, self.slew),
            (Axis::Hoist, self.hoist),
        ]
    }
}

impl fmt::Display for Beam {
    fn fmt<W: fmt::Write>(&self, f: &mut fmt::Formatter<W>) -> fmt::Result {
        let Beam {
            mark,
            weight,
            floor,
            trolley,
            slew,
            hoist,
        } = *self;
        write!(
            f,
            "beam {mark}: {weight} kg to floor {floor}, trolley {trolley} m, slew {slew} degrees, hoist {hoist} m"
        )
    }
}

// What of the crane moves. Its number is the value of the state after it; that of the first state is 0.
#[derive(Clone, Copy)]
pub enum Axis {
    Trolley = 1,
    Slew = 2,
    Hoist = 3,
}

impl Axis {
    // What moving it so far leaves.
    pub fn by(self, far: i32) -> Move
        ensures kind { result.kind ≡ pose_kind self }
        ensures value { result.value ≡ far }
        ensures step { result.step ≡ step_of self }
    {
        Move {
            kind: self.kind(),
            value: far,
            step: self as i32,
        }
    }

    // The kind of its pose cells, each of which links to the pose before it.
    pub fn kind(self) -> u8
        ensures kind { result ≡ pose_kind self }
        ensures links { arity result ≡ 1 }
    {
        match self {
            Axis::Trolley => Kind::Trolley as u8,
            Axis::Slew => Kind::Slew as u8,
            Axis::Hoist => Kind::Hoist as u8,
        }
    }
}

// What a move leaves: a pose cell of a kind that has one link, with a value, and the value of the state after it.
#[derive(Clone, Copy)]
pub struct Move {
    pub kind: u8,
    pub value: i32,
    pub step: i32,
    ghost links: { arity kind ≡ 1 },
}

// The kinds of the cells that follow a beam.
#[derive(Clone, Copy)]
pub enum Kind {
    Mark = 1,
    Pose = 2,
    Weight = 64,
    Floor = 65,
    Trolley = 66,
    Slew = 67,
    Hoist = 68,
    State = 128,
}
