// The worked examples, as one table.
ghost use Rattle.host_tests.specs.WireExamples.{WireExamples};

/// The worked lengths, two private identifiers that do not match, and two whole conversations with Resource Manager,
/// byte for byte.
pub fn bytes_on_the_wire()
    ensures { WireExamples }
{}
