//! Laws of denials, in functions that do nothing.
ghost use Rattle.std.specs.Prelude.{◌≡◌, ◌≤◌, ℕ, length};
ghost use Rattle.denials.specs.Numbers.{names, name_of};

/// A law, which does nothing: no two numbers of denials have one name.
pub fn one_number()
    ensures { (m n : ℕ) → (1 ≤ m) × (m ≤ length names) → (1 ≤ n) × (n ≤ length names) → name_of m ≡ name_of n → m ≡ n }
{}
