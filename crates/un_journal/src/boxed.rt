//! A machine behind a `Box`: each call goes to the machine inside, and moving it moves a word.

use crate::got::Got;
use crate::machine::Machine;
use un_frame::Lane;

/// The machine inside, at the cost of a pointer: who takes it and gives it back moves 8 bytes, whatever the machine's size.
impl<M: Machine> Machine for Box<M> {
    type Act = M::Act;

    type Ans = M::Ans;

    type Part = M::Part;

    type Done = M::Done;

    type Script = M::Script;

    ghost script = { λ b. M.script b.value };

    ghost history = { λ b. M.history b.value };

    ghost flights = { λ b. M.flights b.value };

    ghost flight_of = { M.flight_of };

    ghost carried_flight_of = { M.carried_flight_of };

    ghost answer = { M.answer };

    ghost lines = { M.lines };

    ghost taken = { M.taken };

    ghost taken_lines = { M.taken_lines };

    ghost landed = { M.landed };

    ghost landed_lines = { M.landed_lines };

    ghost is_finished = { M.is_finished };

    fn step(&mut self, action: M::Act) -> M::Ans {
        self.as_mut().step(action)
    }

    fn take_part(&mut self, lane: Lane) -> Got<M::Part> {
        self.as_mut().take_part(lane)
    }

    fn carry(part: M::Part) -> M::Done {
        M::carry(part)
    }

    fn land_part(&mut self, done: M::Done) -> M::Ans {
        self.as_mut().land_part(done)
    }

    fn finished(&self) -> bool {
        self.as_ref().finished()
    }
}
