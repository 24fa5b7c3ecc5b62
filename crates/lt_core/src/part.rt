use std::marker::Model;

/// A part of the story that a core stands for: its opening, or an element since. Clauses speak of such parts; no value of
/// one is made.
pub struct Part {}

impl Model for Part {
    ghost use Rattle.lt_trace.specs.Elements.{free};
    ghost use Rattle.lt_core.specs.Stories.{Part as StoryPart, further};

    ghost Value = { StoryPart };

    ghost view = { λ _. further (free 0) };
}
