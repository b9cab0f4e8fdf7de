// Theorems on schemas, each on the contract of a function.
ghost use Rattle.schema.specs.Laws.{Stratified, SomeStrata};

pub fn stratifications_stand()
    ensures exactly { Stratified }
    ensures always { SomeStrata }
{}
