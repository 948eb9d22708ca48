//! What holds of every picture.

ghost use Rattle.std.specs.Prelude.{ℕ, ◌≤◌};
ghost use Rattle.picture_core.specs.declared.axis.Axis.{Axis};
ghost use Rattle.picture_core.specs.Scales.{IsAxis, x_of, y_of};
ghost use Rattle.picture_core.specs.Laws.{LabelsStandOffBars};

/// A later moment stands no further to the left, and a greater price no lower. It does nothing.
pub fn scales_keep_order()
    ensures moments { (earlier later : ℕ) → earlier ≤ later → x_of earlier ≤ x_of later }
    ensures prices { (axis : Axis) (lower higher : ℕ) → IsAxis axis → lower ≤ higher → y_of axis higher ≤ y_of axis lower }
{}

/// No label of a message stands on a bar, and only bars are hatched. It does nothing.
pub fn labels_stand_off_bars()
    ensures { LabelsStandOffBars }
{}
