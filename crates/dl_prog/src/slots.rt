//! What the names of a procedure stand for while it runs.

ghost use Rattle.std.specs.Prelude.{◌≡◌, ◌≤◌, pos, length, take, IsTrue};
ghost use Rattle.dl_model.specs.Lookup.{arg_names};
ghost use Rattle.dl_model.specs.Words.{me_names, with_numbers};
ghost use Rattle.dl_prog.specs.Slots.{named, put, put_all, put_each, HasEach, AreZero, blanks};

use dl_term::Sort;

// The number of the word `me`.
pub(crate) const ME: u32 = 4;

// The most names of a procedure: `me`, its parameters and its locals.
pub(crate) const PLACES: usize = 25;

// The most locals of a procedure.
const MOST_LOCALS: usize = 16;

// A name and its number.
#[derive(Clone, Copy)]
pub(crate) struct Slot {
    pub(crate) sym: u32,
    pub(crate) value: i64,
}

// A slot of no name.
const BLANK: Slot = Slot { sym: 0, value: 0 };

// Slots of no name.
pub(crate) fn no_slots() -> [Slot; 25]
    ensures zero { AreZero result }
    ensures blank { result ≡ blanks }
{
    [BLANK; 25]
}

// The slots of a procedure where a node enters it with these arguments. Its locals are 0.
pub(crate) fn entry_slots(
    locals: &[u32],
    params: &[(u32, Sort)],
    me: i64,
    args: &[i64],
) -> [Slot; 25]
    requires few_locals { length locals.now ≤ 16 }
    requires few_params { length params.now ≤ 8 }
    requires same { length args.now ≡ length params.now }
    ensures names { named result ≡ with_numbers (me_names 0 me) (arg_names params.now) args.now }
    ensures locals { HasEach result locals.now }
{
    let mut slots = no_slots();
    enter_locals(&mut slots, locals);
    enter_args(&mut slots, params, me, args);
    slots
}

// Names the first slots, whose numbers stay 0.
fn enter_locals(slots: &mut [Slot; 25], locals: &[u32])
    requires few { length locals.now ≤ 16 }
    requires zero { AreZero slots.old }
    ensures zero { AreZero slots.new }
    ensures names { HasEach (take 16 slots.new) locals.now }
{
    for at in 0..locals.len() {
        slots[at] = Slot {
            sym: locals[at],
            value: 0,
        };
    }
}

// Gives the last slots to `me` and the parameters.
fn enter_args(slots: &mut [Slot; 25], params: &[(u32, Sort)], me: i64, args: &[i64])
    requires few { length params.now ≤ 8 }
    requires same { length args.now ≡ length params.now }
    requires zero { AreZero slots.old }
    ensures names { named slots.new ≡ with_numbers (me_names 0 me) (arg_names params.now) args.now }
    ensures front { take 16 slots.new ≡ take 16 slots.old }
{
    let first = PLACES - params.len();
    slots[first - 1] = Slot { sym: ME, value: me };
    for at in 0..params.len() {
        slots[first + at] = Slot {
            sym: params[at].0,
            value: args[at],
        };
    }
}

// The number of a name, or 0 where there is none.
pub(crate) fn number_of(slots: &[Slot; 25], sym: u32) -> i64
    ensures { result ≡ (named slots.now).number sym }
{
    let mut number = 0;
    for slot in slots {
        if sym == slot.sym {
            number = slot.value;
        }
    }
    number
}

// Gives a name a new number.
pub(crate) fn put(slots: &mut [Slot; 25], sym: u32, value: i64)
    ensures { slots.new ≡ put_all sym value slots.old }
{
    for at in 0..PLACES {
        renew(&mut slots[at], sym, value);
    }
}

// Gives the slot a new number, where it has the name.
fn renew(slot: &mut Slot, sym: u32, value: i64)
    ensures { slot.new ≡ put sym value slot.old }
{
    if sym == slot.sym {
        slot.value = value;
    }
}

// Gives names new numbers, as long as there are both.
pub(crate) fn put_each(slots: &mut [Slot; 25], syms: &[u32], values: &[i64])
    ensures { slots.new ≡ put_each syms.now values.now slots.old }
{
    let [sym, syms @ ..] = syms else {
        return;
    };
    let [value, values @ ..] = values else {
        return;
    };
    put(slots, *sym, *value);
    put_each(slots, syms, values);
}
