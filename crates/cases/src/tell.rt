// What is answered, as it is written: the refusal's number; or 0, and the answer.
use model::{Added, Crossed, Looked, Ridden, Scoring, Standing};
use squares::{Cell, Refusal, Square};
use std::io;

pub fn say<T: Tell + Copy>(rt: &impl Print, answer: Result<T, Refusal>) -> io::Result<()> {
    match answer {
        Ok(told) => {
            print!(rt; " 0")?;
            told.tell(rt)
        }
        Err(refusal) => print!(rt; " {}", refusal.number()),
    }
}

// A list, by its first eight numbers at most; and the end of the line.
pub fn say_list(rt: &impl Print, list: &[u32]) -> io::Result<()> {
    print!(rt; " [")?;
    for n in list.iter().take(8) {
        print!(rt; " {n}")?;
    }
    println!(rt; " ]")
}

// An answer of which each number is written after a space.
pub trait Tell {
    fn tell(&self, rt: &impl Print) -> io::Result<()>;
}

impl Tell for () {
    fn tell(&self, _: &impl Print) -> io::Result<()> {
        Ok(())
    }
}

impl Tell for bool {
    fn tell(&self, rt: &impl Print) -> io::Result<()> {
        print!(rt; " {}", if *self { "yes" } else { "no" })
    }
}

// One impl for all that `Display` prints would overlap those of the structs.
impl Tell for u32 {
    fn tell(&self, rt: &impl Print) -> io::Result<()> {
        print!(rt; " {self}")
    }
}

impl Tell for usize {
    fn tell(&self, rt: &impl Print) -> io::Result<()> {
        print!(rt; " {self}")
    }
}

impl<T: Tell> Tell for Option<T> {
    fn tell(&self, rt: &impl Print) -> io::Result<()> {
        match self {
            Some(told) => told.tell(rt),
            None => print!(rt; " -"),
        }
    }
}

impl Tell for Cell {
    fn tell(&self, rt: &impl Print) -> io::Result<()> {
        print!(rt; " {} {}", self.x, self.y)
    }
}

impl Tell for Square {
    fn tell(&self, rt: &impl Print) -> io::Result<()> {
        print!(rt; " {} {} {}", self.x, self.y, self.side)
    }
}

impl Tell for Added {
    fn tell(&self, rt: &impl Print) -> io::Result<()> {
        print!(rt; " {} {}", self.squares, self.cars)
    }
}

impl Tell for Ridden {
    fn tell(&self, rt: &impl Print) -> io::Result<()> {
        print!(rt;
            " {} {} {} {}",
            self.dropped, self.taken, self.entered, self.left
        )
    }
}

impl Tell for Crossed {
    fn tell(&self, rt: &impl Print) -> io::Result<()> {
        print!(rt; " {} {} {}", self.squares, self.entered, self.left)
    }
}

impl Tell for Looked {
    fn tell(&self, rt: &impl Print) -> io::Result<()> {
        print!(rt; " {} {}", self.squares, self.zones)
    }
}

// Yes as 1, no as 0.
impl Tell for Scoring {
    fn tell(&self, rt: &impl Print) -> io::Result<()> {
        print!(rt; " {} {}", u32::from(self.held), self.levels)
    }
}

impl Tell for Standing {
    fn tell(&self, rt: &impl Print) -> io::Result<()> {
        print!(rt;
            " {} {} {} {}",
            self.team0, self.team1, self.team2, self.team3
        )?;
        print!(rt;
            " {} {} {} {}",
            self.team4, self.team5, self.team6, self.team7
        )?;
        print!(rt; " by {}", self.holder)
    }
}
