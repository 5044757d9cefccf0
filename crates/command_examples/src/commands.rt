// Examples of commands, held against the definitions. The function does nothing; its contract is the law.
ghost use Rattle.command_examples.specs.Compared.{
  CommentsDoNotCount,
  AreTreesApart,
  AreMethodsApart,
};
ghost use Rattle.command_examples.specs.Examples.{
  AllJudged,
  classes,
  instance_variables,
  class_variables,
  methods,
  moves,
};
ghost use Rattle.command_examples.specs.Listed.{AllListed, class_listings, method_listings};
ghost use Rattle.command_examples.specs.Orders.{order_rows, AllFalse, missing};
ghost use Rattle.command_examples.specs.Refused.{
  reflections,
  names,
  class_rows,
  new_variables,
  used_variables,
  method_rows,
  move_rows,
  reached_rows,
};

/// In small images commands make the images that stand beside them, or are refused with the first condition that is
/// false, which stands beside them. Each command has the conditions that are listed, in that order; conditions on what
/// is not there are false. Trees, methods and meanings in lists are each the same as itself alone, and comments do not
/// count.
pub fn judges_examples()
    ensures classes { AllJudged classes }
    ensures instance_variables { AllJudged instance_variables }
    ensures class_variables { AllJudged class_variables }
    ensures methods { AllJudged methods }
    ensures moves { AllJudged moves }
    ensures reflections { AllJudged reflections }
    ensures names { AllJudged names }
    ensures class_rows { AllJudged class_rows }
    ensures new_variables { AllJudged new_variables }
    ensures used_variables { AllJudged used_variables }
    ensures method_rows { AllJudged method_rows }
    ensures move_rows { AllJudged move_rows }
    ensures reached_rows { AllJudged reached_rows }
    ensures order_rows { AllJudged order_rows }
    ensures missing { AllFalse missing }
    ensures class_listings { AllListed class_listings }
    ensures method_listings { AllListed method_listings }
    ensures comments { CommentsDoNotCount }
    ensures trees { AreTreesApart }
    ensures methods_and_meanings { AreMethodsApart }
{}
