// How a schema is made and accepted, the questions about it, and its strata.
ghost use Rattle.std.specs.Prelude.{◌≡◌, length, drop, IfOk, Decides, MatchResult, slice_index};
ghost use Rattle.shapes.specs.References.{Stratification};
ghost use Rattle.draft.specs.Refusals.{refusal};
ghost use Rattle.draft.specs.Tables.{lent, no_rows};
ghost use Rattle.schema.specs.Accepted.{accepted, meaning};
ghost use Rattle.schema.specs.Answers.{Answered, strata_refusal};

use crate::schema::Schema;
use draft::{Draft, SchemaFault};
use references::{negated_cycle, ranks, stratifies};
use tables::LawfulTables;

impl Schema {
    // A place that has accepted a draft with no rows.
    pub fn new() -> Schema
        ensures { accepted result ≡ no_rows }
    {
        let tables = LawfulTables::new();
        Schema { tables }
    }

    // Accepts the draft in place of what was accepted before, or refuses it and stays as it was.
    pub fn accept(&mut self, draft: &Draft) -> Result<(), SchemaFault>
        ensures answer { Answered (lent draft.now) (refusal result) }
        ensures change { MatchResult result (λ _. accepted self.new ≡ lent draft.now) (λ _. self.new ≡ self.old) }
    {
        let tables = LawfulTables::of(draft)?;
        if let Some((from, to)) = negated_cycle(&tables) {
            return Err(SchemaFault::Negation(from, to));
        }
        self.tables = tables;
        Ok(())
    }

    // Writes a stratification, one byte for each label, and answers how many labels there are.
    pub fn strata(&self, bytes: &mut [u8]) -> Result<usize, SchemaFault>
        ensures answer { refusal result ≡ strata_refusal (meaning self.now).labels (length bytes.old) }
        ensures value { IfOk result (λ n. n ≡ (meaning self.now).labels) }
        ensures after { IfOk result (λ n. Stratification (meaning self.now) (λ l. slice_index bytes.new l)) }
        ensures kept { MatchResult result (λ n. drop n bytes.new ≡ drop n bytes.old) (λ _. bytes.new ≡ bytes.old) }
    {
        self.tables.lawful();
        let labels = self.label_count();
        if bytes.len() < labels {
            return Err(SchemaFault::ShortBuffer);
        }
        let strata = ranks(&self.tables);
        bytes[0..labels].copy_from_slice(&strata[0..labels]);
        Ok(labels)
    }

    // Whether the first bytes, one for each label, are a stratification.
    pub fn stratifies(&self, bytes: &[u8]) -> bool
        ensures { Decides result (Stratification (meaning self.now) (λ l. slice_index bytes.now l)) }
    {
        stratifies(&self.tables, bytes)
    }
}
