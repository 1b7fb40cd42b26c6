//! Laws of certificates and faults.
ghost use Rattle.certificate.specs.FirstFault.{HasOneTree, HasOneFault, HasNoFault, HasAnswer, HasTitle};

/// A text is a certificate, of one head and one tree, or it has a fault, and one alone.
pub fn answers_are_determined()
    ensures one_tree { HasOneTree }
    ensures one_fault { HasOneFault }
    ensures no_fault { HasNoFault }
    ensures answer { HasAnswer }
    ensures title { HasTitle }
{}
