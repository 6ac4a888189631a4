// What may be absent stands in two places of an array: whether it is there, and what it is.
ghost use Rattle.std.specs.Prelude.{◌≡◌};
ghost use Rattle.radau_core.specs.Choices.{option_tag, option_at};

// 0 where it is absent.
pub fn option_tag<T: Copy>(x: Option<T>) -> usize
    ensures { result ≡ option_tag x }
{
    match x {
        None => 0,
        Some(_) => 1,
    }
}

#[tactic(auto, unfolding(crate::specs::Choices::option_at, words::specs::Loop::pick))]
pub fn option_at<T: Copy>(given: usize, x: T) -> Option<T>
    ensures { result ≡ option_at given x }
{
    if given == 0 {
        return None;
    }
    Some(x)
}
