pub mod composite_read;
pub mod composite_write;
pub mod place;

ghost use Rattle.ii_io.specs.Composite.{ReadsWrittenComposites};

/// Law: a composite file written for bodies of distinct fields is read back.
pub fn reads_composites_back()
    ensures { ReadsWrittenComposites }
{}
