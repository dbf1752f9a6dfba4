// Translating a rule item by item: the instructions of each, behind those of the items before it.
ghost use Rattle.std.specs.Prelude.{◌≡◌, [], ◌∷◌, ◌+◌, ◌-◌, ◌≤◌, ◌<◌};
ghost use Rattle.ground.specs.Limits.{limits};
ghost use Rattle.rules.specs.Items.{row_of_item};
ghost use Rattle.code.specs.Loading.{program_with};
ghost use Rattle.emitter.specs.Translation.{N, timed, item_code};
ghost use Rattle.emitter.specs.Inner.Emission.{nothing_emitted, pushed, with_code, most_own, from_top, next_of};
ghost use Rattle.emitter.specs.Inner.Emission.{items_code};
ghost use Rattle.emitter.specs.Inner.Emission.{CanAdd, CanTranslate};

use code::instruction::Instruction;
use code::load::Program;
use ground::limits::{MOST_INSTRUCTIONS, MOST_ITEMS};
use rules::item::{Item, row_of};

// The code so far, and the numbers of the bits of the values that wait for an operator, in an array, as the library has
// no heap.
#[derive(Clone, Copy)]
pub(crate) struct Emission {
    pub program: Program,
    pub bits: [u16; MOST_ITEMS],
    pub depth: usize,
}

// N: NAND of a bit with itself.
fn inverse(bit: u16) -> Instruction
    ensures { result ≡ N bit }
{
    Instruction::Nand(bit, bit)
}

impl Emission {
    // No instruction, and no value.
    pub(crate) fn new() -> Emission
        ensures { result ≡ nothing_emitted }
    {
        Emission {
            program: Program {
                instructions: [Instruction::One; MOST_INSTRUCTIONS],
                count: 0,
            },
            bits: [0; MOST_ITEMS],
            depth: 0,
        }
    }

    // The number of the next instruction, which always fits.
    fn number(&self) -> u16
        requires { self.now.program.count ≤ limits.instructions }
        ensures { result ≡ self.now.program.count }
    {
        self.program.count as u16
    }

    // One instruction more.
    fn push(&mut self, instruction: Instruction)
        requires { self.old.program.count < limits.instructions }
        ensures own { self.new ≡ pushed self.old instruction }
        ensures counted { self.new.program.count ≡ self.old.program.count + 1 }
    {
        self.program.instructions[self.program.count] = instruction;
        self.program.count += 1;
    }

    // N of the last bit.
    fn invert(&mut self)
        requires { (1 ≤ self.old.program.count) × (self.old.program.count < limits.instructions) }
        ensures own { self.new ≡ pushed self.old (N (self.old.program.count - 1)) }
        ensures counted { self.new.program.count ≡ self.old.program.count + 1 }
    {
        self.push(inverse(self.number() - 1));
    }

    // REACH of two bits b−a, and LATER a of it, which is left out when a = 0.
    #[tactic(auto, unfolding(crate::specs::Translation::timed, crate::specs::Translation::later_by))]
    fn push_timed(&mut self, i: u16, j: u16, a: u16, b: u16)
        requires { (a ≤ b) × (self.old.program.count + 2 ≤ limits.instructions) }
        ensures own { self.new ≡ with_code self.old (timed self.old.program.count i j a b) }
        ensures some { self.old.program.count < self.new.program.count }
        ensures few { self.new.program.count ≤ self.old.program.count + 2 }
    {
        let number = self.number();
        self.push(Instruction::Reach(i, j, b - a));
        if a != 0 {
            self.push(Instruction::Later(number, a));
        }
    }

    // The instructions of an item, by the numbers of its operands' bits: document 01's table of emitted code. A lone
    // operand is the right one.
    #[tactic(auto, using(crate::proofs::Waiting::with_n), unfolding(crate::specs::Translation::item_code))]
    fn push_item(&mut self, item: Item, left: u16, right: u16)
        requires window { (row_of_item item).lower ≤ (row_of_item item).upper }
        requires room { self.old.program.count + most_own ≤ limits.instructions }
        ensures own { self.new ≡ with_code self.old (item_code self.old.program.count item left right) }
        ensures some { self.old.program.count < self.new.program.count }
        ensures few { self.new.program.count ≤ self.old.program.count + most_own }
    {
        let n = self.number();
        match item {
            Item::True => self.push(Instruction::One),
            Item::Flag(k) => self.push(Instruction::Flag(k)),
            Item::False => {
                self.push(Instruction::One);
                self.invert();
            }
            Item::Not => self.push(inverse(right)),
            Item::And => {
                self.push(Instruction::Nand(left, right));
                self.invert();
            }
            Item::Or => {
                self.push(inverse(left));
                self.push(inverse(right));
                self.push(Instruction::Nand(n, n + 1));
            }
            Item::Until(a, b) => self.push_timed(left, right, a, b),
            Item::Release(a, b) => {
                self.push(inverse(left));
                self.push(inverse(right));
                self.push_timed(n, n + 1, a, b);
                self.invert();
            }
            Item::Eventually(a, b) => {
                self.push(Instruction::One);
                self.push_timed(n, right, a, b);
            }
            Item::Globally(a, b) => {
                self.push(Instruction::One);
                self.push(inverse(right));
                self.push_timed(n, n + 1, a, b);
                self.invert();
            }
        }
    }

    // The bit of the value that stands so far below the top; 0 and no `None` if there are not so many, as the table of
    // code takes two numbers for every item.
    fn bit(&self, below: usize) -> u16
        requires { (self.now.depth ≤ limits.items) × (1 ≤ below) }
        ensures { result ≡ from_top self.now.bits self.now.depth below }
    {
        match self.depth.checked_sub(below) {
            Some(place) => self.bits[place],
            None => 0,
        }
    }

    // One item more, whose operands are the last values: its own bit, the last one, takes their place.
    #[tactic(auto, using(crate::proofs::Waiting::depth_stays))]
    fn add(&mut self, item: Item)
        requires { CanAdd self.old item }
        ensures { self.new ≡ next_of self.old item }
    {
        self.push_item(item, self.bit(2), self.bit(1));
        let bottom = self.depth - row_of(item).operands;
        self.bits[bottom] = self.number() - 1;
        self.depth = bottom + 1;
    }

    // All items of a rule in turn, each of which has its operands before it.
    pub(crate) fn add_all(&mut self, items: &[Item])
        requires none { self.old ≡ nothing_emitted }
        requires ready { CanTranslate items.now }
        ensures { self.new.program ≡ program_with (items_code items.now) }
    {
        for item in items {
            self.add(*item);
        }
    }
}

// The code of items, each of which has its operands before it.
pub(crate) fn translate(items: &[Item]) -> Program
    requires { CanTranslate items.now }
    ensures { result ≡ program_with (items_code items.now) }
{
    let mut emission = Emission::new();
    emission.add_all(items);
    emission.program
}
