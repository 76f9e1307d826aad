// What an answer states, for C: a number and values. The number is returned, the values are written as far as there are entries for them.
#![tactic(auto)]

ghost use Rattle.std.specs.Prelude.{◌≡◌, refl, set, Some, None};
ghost use Rattle.lists.specs.Over.{fit_over};
ghost use Rattle.answer.specs.Stated.{Stated, cell, stated_plan, stated_best, stated_shares, stated_as};
ghost use Rattle.c_values.specs.Values.{number_of, values_of, Gives};

use answer::{Plan, Refusal, Shared, code_of};

// In the place of a site: no site is a best sender.
const NO_SENDER: u64 = 18446744073709551615;

// One value, where the table has an entry for it.
fn put(values: &mut [u64], at: usize, value: u64)
    ensures { values.new ≡ set values.old at value }
{
    if at < values.len() {
        values[at] = value;
    }
}

// What stands for an answer in C: the values of it that are written.
pub trait Given {
    // What is stated of it.
    ghost said: { Self → Stated };

    // Its values are written, as far as there are entries for them.
    fn put(self, values: &mut [u64])
        ensures { values.new ≡ fit_over (values_of (said self)) values.old };

    // The number 0 stands for it.
    ghost zero: { (x : Self) → number_of (said x) ≡ 0 };
}

// Root, total and leg count of a plan.
impl Given for Plan {
    ghost said = { stated_plan };

    ghost zero = { λ x. refl };

    fn put(self, values: &mut [u64]) {
        put(values, 0, u64::from(self.root));
        put(values, 1, self.total);
        put(values, 2, u64::from(self.arcs));
    }
}

// The same, and the unassigned sum.
impl Given for Shared {
    ghost said = { stated_shares };

    ghost zero = { λ x. refl };

    fn put(self, values: &mut [u64]) {
        self.plan.put(values);
        put(values, 3, self.unassigned);
    }
}

// A cell.
impl Given for u64 {
    ghost said = { cell };

    ghost zero = { λ x. refl };

    fn put(self, values: &mut [u64]) {
        put(values, 0, self);
    }
}

// The site of a best sender, or `NO_SENDER`.
impl Given for Option<u16> {
    ghost said = { stated_best };

    ghost zero = { elim [ Some v ↦ refl | None ↦ refl ] };

    fn put(self, values: &mut [u64]) {
        match self {
            Some(node) => put(values, 0, u64::from(node)),
            None => put(values, 0, NO_SENDER),
        }
    }
}

// The values of an answer, and 0; or the place of a refusal, and its number.
pub fn give<T: Given>(sent: Result<T, Refusal>, values: &mut [u64]) -> u32
    ensures { Gives (stated_as T.said sent) result values.old values.new }
{
    match sent {
        Ok(value) => {
            value.put(values);
            0
        }
        Err(refusal) => {
            let code = code_of(refusal);
            put(values, 0, code.place as u64);
            u32::from(code.number)
        }
    }
}
