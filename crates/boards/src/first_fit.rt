// The board of a copy by first fit (SPEC 5.1), over the open boards of its kind, whatever sheet the copies are of.
// Contracts see an `OpenBoards` as the list of the times at which each board is free again. `take` gives a copy the first board that is free at its start:
// the promises are equations over the list, with the model's `free_board` and `occupy`.
ghost use Rattle.std.specs.Prelude.{◌≡◌, ℕ, ◌<◌, [], length};
ghost use Rattle.model.specs.Boards.{free_board, occupy};

use std::marker::Model;

// SPEC 5.1: the lowest board that is free at a start, or else a new one, by when each board is free again.
// Kept: a number where no board is free, too, since that of the new board is how many there are.
// Kept: a loop, since its proof is by the number of the board that is looked at, where one about `position` fits only a search from the first board on.
#[tactic(auto, using(crate::proofs::FirstFit::first_is, crate::proofs::FirstFit::none_is))]
fn first_free(ends: &[u32], start: u32) -> usize
    ensures { result ≡ free_board ends.now start }
{
    for (b, &end) in ends.iter().enumerate() {
        if end <= start {
            return b;
        }
    }
    ends.len()
}

// The open boards of one kind: how many there are, and when each is free again.
#[derive(Drop)]
pub struct OpenBoards {
    ends: [u32; model::STAGES_MAX],
    count: usize,
}

impl Model for OpenBoards {
    ghost use Rattle.std.specs.Prelude.{◌≤◌, ℕ, List, take};

    ghost Value = { List ℕ };

    ghost view = { λ boards. take boards.count boards.ends };

    ghost invariant = { λ boards. boards.count ≤ 256 };
}

impl OpenBoards {
    // SPEC 5.2: before its first copy a kind has no boards.
    pub fn new() -> Self
        ensures { result ≡ [] }
    {
        OpenBoards {
            ends: [0; model::STAGES_MAX],
            count: 0,
        }
    }

    // How many boards are open.
    pub fn count(&self) -> u32
        ensures { result ≡ length self.now }
    {
        self.count as u32
    }

    // Gives a copy the first board that is free at its start, until it frees it.
    #[tactic(auto, using(crate::proofs::FirstFit::taken_open, crate::proofs::FirstFit::taken_next))]
    pub fn take(&mut self, start: u32, free: u32) -> usize
        requires { free_board self.old start < 256 }
        ensures board { result ≡ free_board self.old start }
        ensures taken { self.new ≡ occupy self.old result free }
    {
        let open = self.count;
        let board = first_free(&self.ends[..open], start);
        self.ends[board] = free;
        // Kept: no `max`, since with a store of the count for each copy the room took 3 to 5 % longer.
        if board == open {
            self.count = open + 1;
        }
        board
    }
}
