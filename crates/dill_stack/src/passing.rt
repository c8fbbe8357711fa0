ghost use Rattle.std.specs.Prelude.{◌≡◌, ◌≤◌, ◌∷◌, ◌&&◌, [], not, length, max, true, None};
ghost use Rattle.dill_stack.specs.declared.want.Want.TheVariants as want;
ghost use Rattle.dill_ws.specs.Frames.{frame_bytes};
ghost use Rattle.dill_stack.specs.Framing.{PassesNext, StackPasses, answers_of, key_in, masks_of};
ghost use Rattle.dill_stack.specs.Layers.{IsStanding};
ghost use Rattle.dill_stack.specs.Receiving.{read, with_pong, with_pongs_of, ws_of};
ghost use Rattle.dill_stack.specs.Standing.{is_open_base};
ghost use Rattle.dill_stack.specs.Stepping.{PassesNothing, next_pass};
ghost use Rattle.dill_stack.specs.Needs.{limit_of_want};

use crate::direction::Direction;
use crate::frames::{Pass, pass_on_link};
use crate::placed::Base;
use crate::pong::Pong;
use crate::refusals::has_met;
use crate::sending::draw;
use crate::stack::Stack;
use crate::want::Want;
use rand_core::Rng;

impl Stack {
    // All frames at the front that this receive passes are passed, and pongs are queued.
    pub(crate) fn pass_frames<R: Rng>(&mut self, want: Want, keys: &mut R)
        requires joined { limit_of_want want ≤ max 16384 self.old.most }
        requires standing { IsStanding self.old.held.layers }
        ensures same { read want (R.stream keys.new) self.new.held ≡ read want (R.stream keys.old) self.old.held }
        ensures last { PassesNothing want self.new.held }
        ensures rest { self.new ≡ record self.old { held = self.new.held } }
    {
        if let Want::Message(limit) = want {
            self.pass_all(limit, keys);
        }
    }

    // The same for a message of at most so many bytes.
    fn pass_all<R: Rng>(&mut self, limit: usize, keys: &mut R)
        requires joined { limit ≤ max 16384 self.old.most }
        requires standing { IsStanding self.old.held.layers }
        ensures same { read (want.Message limit) (R.stream keys.new) self.new.held ≡ read (want.Message limit) (R.stream keys.old) self.old.held }
        ensures last { next_pass limit self.new.held ≡ None }
        ensures rest { self.new ≡ record self.old { held = self.new.held } }
    {
        let most = self.unread_count();
        for _frame in 0..most {
            if !self.pass_next(limit, keys) {
                return;
            }
        }
    }

    // How many bytes are unread, which are no more than a slice may have.
    pub(crate) fn unread_count(&self) -> usize
        ensures count { result ≡ length self.now.held.unread }
        ensures most { result ≤ 9223372036854775807 }
    {
        self.unread.as_slice().len()
    }

    // A frame at the front is passed, if there is one to pass, and its pong is queued. Says whether there was one.
    pub(crate) fn pass_next<R: Rng>(&mut self, limit: usize, keys: &mut R) -> bool
        requires { limit ≤ max 16384 self.old.most }
        ensures { PassesNext limit result self.old self.new (R.stream keys.old) (R.stream keys.new) }
    {
        match self.pass_one(limit) {
            Pass::Nothing => false,
            Pass::Frame => true,
            Pass::Ping(payload) => {
                self.answer_ping(payload.as_slice(), keys);
                true
            }
        }
    }

    // The same, but for the pong. Where the end of a layer was met, none is passed.
    fn pass_one(&mut self, limit: usize) -> Pass
        requires { limit ≤ max 16384 self.old.most }
        ensures { StackPasses limit result self.old self.new }
    {
        if has_met(self.terms.as_slice(), &self.base) {
            return Pass::Nothing;
        }
        pass_on_link(&mut self.base, &mut self.unread, limit)
    }

    // A pong is queued, unless a close frame was or the sending direction is broken or done.
    fn answer_ping<R: Rng>(&mut self, payload: &[u8], keys: &mut R)
        requires { length payload.now ≤ 125 }
        ensures stack { self.new ≡ record self.old { held = (with_pongs_of (ws_of self.old.held.layers) (payload.now ∷ []) (R.stream keys.old) self.old.held).0 } }
        ensures random { R.stream keys.new ≡ (with_pongs_of (ws_of self.old.held.layers) (payload.now ∷ []) (R.stream keys.old) self.old.held).1 }
    {
        if self.answers_pings() {
            let key = draw(self.masks_pongs(), keys);
            self.put_pong(payload, key);
        }
    }

    fn answers_pings(&self) -> bool
        ensures { result ≡ answers_of (ws_of self.now.held.layers) self.now.held }
    {
        answers_pings(&self.base, self.sending)
    }

    fn masks_pongs(&self) -> bool
        ensures { result ≡ masks_of (ws_of self.now.held.layers) }
    {
        self.base.masks()
    }

    fn put_pong(&mut self, payload: &[u8], key: [u8; 4])
        requires { length payload.now ≤ 125 }
        ensures { self.new ≡ record self.old { held = record self.old.held { queue = with_pong (frame_bytes true 10 (key_in (ws_of self.old.held.layers) key) payload.now) self.old.held.queue } } }
    {
        self.queue
            .put_pong(Pong::new(self.base.frame_key(key), payload));
    }
}

// A WebSocket layer is there that has queued no close frame, and this direction is whole.
fn answers_pings(base: &Base, sending: Direction) -> bool
    ensures { result ≡ (is_open_base base.now && not sending.broken && not sending.done) }
{
    base.is_open() && !sending.broken && !sending.done
}
