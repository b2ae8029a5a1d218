//! A law of texts that are cut into reads.
ghost use Rattle.termwiz_laws.specs.ManyReads.{ReadsAreOneText};

/// A text may be cut into any number of reads, all but the last with more to come. The events of the reads in turn, and what stays
/// buffered after the last one, are exactly those of the whole text: what was buffered before, and then the bytes of all reads.
pub fn reads_are_one_text()
    ensures { ReadsAreOneText }
{}
