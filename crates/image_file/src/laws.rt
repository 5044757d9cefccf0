// A law of what can be written. The function does nothing; its contract is the law.
ghost use Rattle.class_table.specs.Slots.{Slots};
ghost use Rattle.class_table.specs.Valid.{IsOrderly};
ghost use Rattle.image_file.specs.Writable.{IsWritable};

/// Each orderly image can be written.
pub fn writes_orderly_images()
    ensures { (s : Slots) → IsOrderly s → IsWritable s }
{}
